//! Calls that a driver makes of a station.

use super::node::Station;
use super::row_answers::RowAnswers;
use super::words::{config_of, request_of};

/// Does a call of a driver.
///
/// `give 000000`, a request, and whether the node takes it or gives it `back`; `abort`, and what it comes to; `stop`;
/// `start tec=100`, where it is in reset; and `restart tec=100`, a stop and a start.
pub fn of_driver(told: &mut RowAnswers, station: &mut Station, name: &str, rest: &str) {
    match name {
        "give" => told.say(given(station, rest)),
        "abort" => told.name(station.abort()),
        "stop" => station.stop(),
        "start" => match config_of(rest) {
            Some(config) if station.start(config) => {}
            _ => told.unread(),
        },
        "restart" => match config_of(rest) {
            Some(config) => station.restart(config),
            None => told.unread(),
        },
        _ => told.unread(),
    }
}

/// What becomes of a request.
fn given(station: &mut Station, rest: &str) -> &'static str {
    let Some(request) = request_of(rest) else {
        return "?";
    };
    let same = request.copy();
    match station.request(request) {
        Ok(()) => "ok",
        Err(back) => { if back == same { "back" } else { "another back" } }
    }
}
