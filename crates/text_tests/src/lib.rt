//! Tests of the crates that read texts, type them and count their points: worked values, one module for each crate.
#![tactic(auto)]

#[cfg(test)]
mod app_generator_tests;
#[cfg(test)]
mod app_model_tests;
#[cfg(test)]
mod c_grammar_tests;
#[cfg(test)]
mod c_lex_tests;
#[cfg(test)]
mod c_parse_tests;
#[cfg(test)]
mod c_types_tests;
#[cfg(test)]
mod command_words_tests;
#[cfg(test)]
mod lower_pieces_tests;
#[cfg(test)]
mod oil_text_tests;
#[cfg(test)]
mod typed_tests;
#[cfg(test)]
mod unit_counts_tests;
