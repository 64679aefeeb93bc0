//! Tests of how a text is read: what no clause says of `ooo_lexer`, `ooo_syntax`, `ooo_parser` and `ooo_printer`.
#![tactic(auto)]

#[cfg(test)]
mod frames;
#[cfg(test)]
mod lexer;
#[cfg(test)]
mod parser;
#[cfg(test)]
mod printer;
#[cfg(test)]
mod symbols_of_sources;
#[cfg(test)]
mod syntax;
