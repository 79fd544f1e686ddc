//! Rows of the table of conversion, computed on its definitions.
ghost use Rattle.render_conversion.specs.CompletePageRows.{blocks_row, caption_alone_row, captions_row};
ghost use Rattle.render_conversion.specs.CompletePageRows.{drawn_texts_row, foot_row, icon_row, listings_row};
ghost use Rattle.render_conversion.specs.CompletePageRows.{menus_row};
ghost use Rattle.render_conversion.specs.CompletePageRows.{open_dialog_row, quotation_row, rule_row, span_of_text_row};
ghost use Rattle.render_conversion.specs.CompletePageRows.{titled_drawing_row, undrawn_row, unread_row};
ghost use Rattle.render_conversion.specs.ElementRows.{break_row, code_row, comment_row, digits_row, division_row};
ghost use Rattle.render_conversion.specs.ElementRows.{document_row, drawing_row, drawing_without_title_row};
ghost use Rattle.render_conversion.specs.ElementRows.{emphasis_row, empty_document_row, foreign_row, headings_row};
ghost use Rattle.render_conversion.specs.ElementRows.{image_row, image_without_source_row, image_without_title_row};
ghost use Rattle.render_conversion.specs.ElementRows.{left_out_row, lone_cell_row, nested_superscript_row, other_row};
ghost use Rattle.render_conversion.specs.ElementRows.{paragraph_row, quote_row, script_row, strikeout_row, strong_row};
ghost use Rattle.render_conversion.specs.ElementRows.{superscript_row, two_texts_row, word_break_row};
ghost use Rattle.render_conversion.specs.HidingRows.{display_none_row, hidden_attribute_row, hidden_body_row};
ghost use Rattle.render_conversion.specs.HidingRows.{hidden_cell_row, hidden_fragment_row, hidden_list_item_row};
ghost use Rattle.render_conversion.specs.HidingRows.{important_row, other_attribute_row, other_style_row};
ghost use Rattle.render_conversion.specs.HidingRows.{shown_hidden_row, until_found_row};
ghost use Rattle.render_conversion.specs.ListRows.{bullets_row, descriptions_row, empty_link_row};
ghost use Rattle.render_conversion.specs.ListRows.{empty_link_with_fragment_row, fragment_of_nothing_row};
ghost use Rattle.render_conversion.specs.ListRows.{greater_start_row, least_start_row, link_round_fragment_row};
ghost use Rattle.render_conversion.specs.ListRows.{link_round_image_row, link_round_image_without_title_row};
ghost use Rattle.render_conversion.specs.ListRows.{link_round_table_row, link_row, link_with_two_names_row};
ghost use Rattle.render_conversion.specs.ListRows.{link_without_target_row, list_of_nothing_row};
ghost use Rattle.render_conversion.specs.ListRows.{list_of_nothing_with_fragment_row, name_of_another_row};
ghost use Rattle.render_conversion.specs.ListRows.{no_number_row, no_start_row, other_items_row, signed_start_row};
ghost use Rattle.render_conversion.specs.ListRows.{span_too_great_row, start_row, table_row, table_without_cells_row};
ghost use Rattle.render_conversion.specs.StyleRows.{coloured_digits_row, coloured_mark_row, coloured_row};
ghost use Rattle.render_conversion.specs.StyleRows.{hidden_item_row, hidden_mark_row, hidden_row, mark_in_item_row};
ghost use Rattle.render_conversion.specs.StyleRows.{mark_in_list_row, mark_of_break_row, marks_in_link_row, marks_row};
ghost use Rattle.render_conversion.specs.StyleRows.{preformatted_as_said_row, preformatted_row};

// documents, and what has no value
fn rows_of_nodes()
    ensures left_out { left_out_row }
    ensures script { script_row }
    ensures comment { comment_row }
    ensures empty_document { empty_document_row }
    ensures document { document_row }
{}

// elements in a line
fn rows_of_texts()
    ensures emphasis { emphasis_row }
    ensures strong { strong_row }
    ensures strikeout { strikeout_row }
    ensures code { code_row }
    ensures superscript { superscript_row }
    ensures digits { digits_row }
    ensures nested_superscript { nested_superscript_row }
    ensures two_texts { two_texts_row }
    ensures line_break { break_row }
    ensures word_break { word_break_row }
    ensures other { other_row }
    ensures lone_cell { lone_cell_row }
    ensures foreign { foreign_row }
{}

// images
fn rows_of_images()
    ensures image { image_row }
    ensures image_without_title { image_without_title_row }
    ensures image_without_source { image_without_source_row }
    ensures drawing { drawing_row }
    ensures drawing_without_title { drawing_without_title_row }
{}

// blocks
fn rows_of_blocks()
    ensures paragraph { paragraph_row }
    ensures division { division_row }
    ensures headings { headings_row }
    ensures quote { quote_row }
{}

// links, and where fragments start
fn rows_of_links()
    ensures link { link_row }
    ensures link_without_target { link_without_target_row }
    ensures empty_link { empty_link_row }
    ensures empty_link_with_fragment { empty_link_with_fragment_row }
    ensures link_round_fragment { link_round_fragment_row }
    ensures link_round_image { link_round_image_row }
    ensures link_round_image_without_title { link_round_image_without_title_row }
    ensures link_with_two_names { link_with_two_names_row }
    ensures name_of_another { name_of_another_row }
    ensures fragment_of_nothing { fragment_of_nothing_row }
{}

// lists
fn rows_of_lists()
    ensures bullets { bullets_row }
    ensures other_items { other_items_row }
    ensures list_of_nothing { list_of_nothing_row }
    ensures list_of_nothing_with_fragment { list_of_nothing_with_fragment_row }
    ensures start { start_row }
    ensures no_start { no_start_row }
    ensures signed_start { signed_start_row }
    ensures least_start { least_start_row }
    ensures greater_start { greater_start_row }
    ensures no_number { no_number_row }
    ensures descriptions { descriptions_row }
{}

// tables
fn rows_of_tables()
    ensures table { table_row }
    ensures span_too_great { span_too_great_row }
    ensures table_without_cells { table_without_cells_row }
    ensures link_round_table { link_round_table_row }
{}

// how values look
fn rows_of_looks()
    ensures preformatted { preformatted_row }
    ensures preformatted_as_said { preformatted_as_said_row }
    ensures coloured { coloured_row }
    ensures coloured_digits { coloured_digits_row }
    ensures coloured_mark { coloured_mark_row }
{}

// what is hidden, and texts by rules
fn rows_of_contents()
    ensures marks { marks_row }
    ensures marks_in_link { marks_in_link_row }
    ensures hidden { hidden_row }
    ensures hidden_item { hidden_item_row }
    ensures hidden_mark { hidden_mark_row }
    ensures mark_in_item { mark_in_item_row }
    ensures mark_in_list { mark_in_list_row }
    ensures mark_of_break { mark_of_break_row }
{}

// elements that hide themselves
fn rows_of_hidden()
    ensures attribute { hidden_attribute_row }
    ensures until_found { until_found_row }
    ensures display_none { display_none_row }
    ensures important { important_row }
    ensures other_style { other_style_row }
    ensures other_attribute { other_attribute_row }
    ensures body { hidden_body_row }
    ensures fragment { hidden_fragment_row }
    ensures item { hidden_list_item_row }
    ensures cell { hidden_cell_row }
    ensures shown { shown_hidden_row }
{}

// elements of complete pages
fn rows_of_complete_pages()
    ensures unread { unread_row }
    ensures open_dialog { open_dialog_row }
    ensures rule { rule_row }
    ensures blocks { blocks_row }
    ensures menus { menus_row }
    ensures listings { listings_row }
    ensures quotation { quotation_row }
{}

// their tables
fn rows_of_complete_tables()
    ensures foot { foot_row }
    ensures captions { captions_row }
    ensures caption_alone { caption_alone_row }
{}

// their drawings
fn rows_of_drawings()
    ensures undrawn { undrawn_row }
    ensures drawn_texts { drawn_texts_row }
    ensures icon { icon_row }
    ensures titled_drawing { titled_drawing_row }
    ensures span_of_text { span_of_text_row }
{}
