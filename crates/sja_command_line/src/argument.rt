//! The arguments of commands as the parser holds them.

ghost use Rattle.std.specs.Prelude.{Some};
ghost use Rattle.clap.specs.Words.{new_rule};
ghost use Rattle.clap.specs.declared.builder.action.ArgAction.{ArgAction};
ghost use Rattle.sja_command_line.specs.Inside.Parser.{IsReadAs};
ghost use Rattle.sja_command_line.specs.Inside.Table.{rule_in, taking_rule};

use super::argument_row::ArgumentRow;
use super::sweep_words::GREATEST_NUMBER;
use super::takes::Takes;
use super::task::MOST_MESSAGES;
use clap::builder::ValueParser;
use clap::{Arg, ArgAction};
use std::alloc::Global;

/// The argument of a row of the table.
#[tactic(auto, unfolding(crate::specs::Inside::Parser::IsReadAs))]
pub(crate) fn argument_of<'a>(alloc: Global, row: &ArgumentRow<'a>) -> Arg<'a>
    ensures { IsReadAs result (rule_in row.now) }
{
    match row.takes {
        Takes::Text => taking(alloc, row, ArgAction::Set).required(true),
        Takes::Texts => taking(alloc, row, ArgAction::Set)
            .required(true)
            .num_args(1..=MOST_MESSAGES),
        Takes::File => taking(alloc, row, ArgAction::Set),
        Takes::Files => taking(alloc, row, ArgAction::Append).num_args(1..),
        Takes::Bit => taking(alloc, row, ArgAction::Set).value_parser(ValueParser::unsigned(
            0,
            u64::from(GREATEST_NUMBER),
        )),
        Takes::Nothing => taking(alloc, row, ArgAction::SetTrue).long(row.name),
        Takes::Named(names) => taking(alloc, row, ArgAction::Set)
            .long(row.name)
            .value_names(names),
        Takes::Numbers(names, least, most) => taking(alloc, row, ArgAction::Set)
            .long(row.name)
            .value_names(names)
            .value_parser(ValueParser::unsigned(u64::from(least), u64::from(most))),
    }
}

/// An argument with the name and the line of help of this row, that does this with what it takes.
#[tactic(auto, unfolding(crate::specs::Inside::Parser::IsReadAs))]
fn taking<'a>(alloc: Global, row: &ArgumentRow<'a>, action: ArgAction) -> Arg<'a>
    ensures { IsReadAs result (taking_rule row.now.name.now action) }
{
    Arg::new(alloc, row.name).help(row.help).action(action)
}
