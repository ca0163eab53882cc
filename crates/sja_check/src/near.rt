//! The nearest of several words.

use super::page::Page;
use sja_plan_reading::REGISTERS;
use strsim::osa_distance;

/// How many characters a word has at most for which a near one is looked for (this project's own rule).
const MOST_CHARACTERS: usize = 20;

/// The word of a list that is nearest to a given one, in either case: one edit away, and one more for each four
/// characters that are given (this project's own rule); nothing where none is. Edits are those of `strsim`: a character
/// put in, left out or changed, or two that change places.
pub(crate) fn nearest(page: &mut Page, given: &str, words: &[&'static str]) -> &'static str {
    if given.len() > MOST_CHARACTERS {
        return "";
    }
    match given.to_ascii_lowercase(page.alloc) {
        Ok(given) => of_one_case(page, given.as_str(), words),
        Err(_) => {
            page.refused = true;
            ""
        }
    }
}

/// The name of a register that is nearest to a given word, in either case; nothing where none is.
pub(crate) fn nearest_register(page: &mut Page, given: &str) -> &'static str {
    if given.len() > MOST_CHARACTERS {
        return "";
    }
    let mut names = [""; 50];
    for (place, register) in REGISTERS.iter().enumerate() {
        if place < names.len() {
            names[place] = register.0;
        }
    }
    match given.to_ascii_uppercase(page.alloc) {
        Ok(given) => of_one_case(page, given.as_str(), &names),
        Err(_) => {
            page.refused = true;
            ""
        }
    }
}

/// The same of words in one case.
fn of_one_case(page: &mut Page, given: &str, words: &[&'static str]) -> &'static str {
    let mut least = given.len() / 4 + 2;
    let mut found = "";
    for word in words {
        match osa_distance(page.alloc, given, word) {
            Ok(edits) if edits < least => {
                least = edits;
                found = *word;
            }
            Ok(_) => {}
            Err(_) => page.refused = true,
        }
    }
    found
}
