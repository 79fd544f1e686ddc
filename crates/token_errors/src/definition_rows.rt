//! What contracts say of characters and of ends of pages, computed on worked rows.
ghost use Rattle.std.specs.Prelude.{◌≡◌, true, false};
ghost use Rattle.html_lexemes.specs.declared.states.RawKind.TheVariants.{Rcdata, ScriptData, ScriptDataEscaped};
ghost use Rattle.html_lexemes.specs.declared.states.ScriptEscapeKind.TheVariants.{DoubleEscaped, Escaped};
ghost use Rattle.html_lexemes.specs.declared.states.State.TheVariants.{CdataSection, CdataSectionBracket};
ghost use Rattle.html_lexemes.specs.declared.states.State.TheVariants.{CdataSectionEnd, Data, Plaintext, RawData};
ghost use Rattle.html_lexemes.specs.declared.states.State.TheVariants.{RawEndTagName, RawEndTagOpen, RawLessThanSign};
ghost use Rattle.html_lexemes.specs.declared.states.State.TheVariants.{ScriptDataDoubleEscapeEnd};
ghost use Rattle.html_lexemes.specs.declared.states.State.TheVariants.{ScriptDataEscapeStart};
ghost use Rattle.html_lexemes.specs.declared.states.State.TheVariants.{ScriptDataEscapeStartDash};
ghost use Rattle.html_lexemes.specs.declared.states.State.TheVariants.{ScriptDataEscapedDash};
ghost use Rattle.html_lexemes.specs.declared.states.State.TheVariants.{ScriptDataEscapedDashDash};
ghost use Rattle.token_errors.specs.Found.{is_error_at_end};
ghost use Rattle.token_errors.specs.Noncharacters.{is_noncharacter};

fn characters_of_rows()
    ensures first_control { is_noncharacter 0x01 ≡ true }
    ensures backspace { is_noncharacter 0x08 ≡ true }
    ensures tab { is_noncharacter 0x09 ≡ false }
    ensures line_feed { is_noncharacter 0x0A ≡ false }
    ensures line_tabulation { is_noncharacter 0x0B ≡ true }
    ensures form_feed { is_noncharacter 0x0C ≡ false }
    ensures carriage_return { is_noncharacter 0x0D ≡ false }
    ensures shift_out { is_noncharacter 0x0E ≡ true }
    ensures unit_separator { is_noncharacter 0x1F ≡ true }
    ensures space { is_noncharacter 0x20 ≡ false }
    ensures tilde { is_noncharacter 0x7E ≡ false }
    ensures delete { is_noncharacter 0x7F ≡ true }
    ensures last_control { is_noncharacter 0x9F ≡ true }
    ensures no_break_space { is_noncharacter 0xA0 ≡ false }
    ensures before_the_block { is_noncharacter 0xFDCF ≡ false }
    ensures block { is_noncharacter 0xFDD0 ≡ true }
    ensures end_of_the_block { is_noncharacter 0xFDEF ≡ true }
    ensures after_the_block { is_noncharacter 0xFDF0 ≡ false }
    ensures replacement { is_noncharacter 0xFFFD ≡ false }
    ensures end_of_the_first_plane { is_noncharacter 0xFFFE ≡ true }
    ensures second_plane { is_noncharacter 0x10000 ≡ false }
    ensures end_of_the_second_plane { is_noncharacter 0x1FFFF ≡ true }
    ensures last { is_noncharacter 0x10FFFF ≡ true }
{}

// WHATWG HTML, 13.2.5.69 to 13.2.5.71, and 13.2.5.15 to 13.2.5.31 with what each makes of the end of the page
fn ends_of_rows()
    ensures text { is_error_at_end Data ≡ false }
    ensures plain_text { is_error_at_end Plaintext ≡ false }
    ensures title { is_error_at_end (RawData Rcdata) ≡ false }
    ensures section { is_error_at_end CdataSection ≡ true }
    ensures section_bracket { is_error_at_end CdataSectionBracket ≡ true }
    ensures section_end { is_error_at_end CdataSectionEnd ≡ true }
    ensures script { is_error_at_end (RawData ScriptData) ≡ false }
    ensures script_sign { is_error_at_end (RawLessThanSign ScriptData) ≡ false }
    ensures escape_start { is_error_at_end (ScriptDataEscapeStart Escaped) ≡ false }
    ensures escape_start_dash { is_error_at_end ScriptDataEscapeStartDash ≡ false }
    ensures escaped { is_error_at_end (RawData (ScriptDataEscaped Escaped)) ≡ true }
    ensures escaped_dash { is_error_at_end (ScriptDataEscapedDash Escaped) ≡ true }
    ensures escaped_dashes { is_error_at_end (ScriptDataEscapedDashDash Escaped) ≡ true }
    ensures escaped_sign { is_error_at_end (RawLessThanSign (ScriptDataEscaped Escaped)) ≡ true }
    ensures escaped_end_tag { is_error_at_end (RawEndTagOpen (ScriptDataEscaped Escaped)) ≡ true }
    ensures escaped_end_tag_name { is_error_at_end (RawEndTagName (ScriptDataEscaped Escaped)) ≡ true }
    ensures double_escape_start { is_error_at_end (ScriptDataEscapeStart DoubleEscaped) ≡ true }
    ensures double_escaped { is_error_at_end (RawData (ScriptDataEscaped DoubleEscaped)) ≡ true }
    ensures double_escaped_dash { is_error_at_end (ScriptDataEscapedDash DoubleEscaped) ≡ true }
    ensures double_escaped_dashes { is_error_at_end (ScriptDataEscapedDashDash DoubleEscaped) ≡ true }
    ensures double_escaped_sign { is_error_at_end (RawLessThanSign (ScriptDataEscaped DoubleEscaped)) ≡ true }
    ensures double_escape_end { is_error_at_end ScriptDataDoubleEscapeEnd ≡ true }
{}
