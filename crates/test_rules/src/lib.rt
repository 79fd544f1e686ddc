//! The rule table of tree construction, computed on small pages: functions that do nothing, whose contracts are rows.
#![tactic(auto)]

mod cases;
mod foreign;
mod fragments;
mod modes;
mod pages;
mod quirks;
