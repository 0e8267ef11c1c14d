//! A client and its log.

ghost use Rattle.std.specs.Prelude.{◌+◌, ◌≤◌, ◌^◌, length};
ghost use Rattle.std.specs.Vec.Iter.{into_iter_items};
ghost use Rattle.intake.specs.Passes.{IsClientOf, sent_by};

use crate::call::ClientCall;
use intake::{ClientPass, Intake};
use std::vec::IntoIter;

/// A client, and what is left of its log.
#[derive(Drop)]
pub struct Client<'a> {
    pub intake: &'a Intake<ClientCall>,
    pub pass: ClientPass<ClientCall>,
    pub log: IntoIter<ClientCall>,
    ghost own: { IsClientOf intake.now pass },
    ghost room: { length (sent_by pass) + length (into_iter_items log) ≤ 2 ^ 48 },
}
