//! Memory that settlings use one after another.
use crate::agenda::Agenda;
use std::alloc::{Allocator, Global};
use std::marker::Model;

/// Memory that settlings use one after another, so that the next one need not take it anew. Nothing in
/// it matters to a settling, and it belongs to no network.
#[derive(Drop)]
pub struct Workspace<A: Allocator = Global> {
    pub(crate) agenda: Agenda<A>,
}

impl<A: Allocator> Model for Workspace<A> {
    ghost Value = { Unit {0} };

    ghost view = { λ _. tt };
}

impl<A: Allocator + Copy> Workspace<A> {
    /// A workspace that has taken no memory yet.
    pub fn new(alloc: A) -> Workspace<A> {
        Workspace {
            agenda: Agenda::without_room(alloc),
        }
    }
}
