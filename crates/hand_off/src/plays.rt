//! What each kind of step tells. These types are for the proofs alone.

ghost use Rattle.hand_off.specs.Steps.{fills, posts, drains, clears, claims, delivers};

use crate::view::{Load, View, Work};
use atomic_table::{Play, Split};
use std::marker::PhantomData;

/// The scheduler tries an idle lane.
pub struct Fill;

impl<J, D> Play<Option<Load<J, D>>, View<J>> for Fill {
    ghost then = { fills };
}

/// The scheduler gives a lane home with a job.
pub struct Post<W> {
    work: PhantomData<W>,
}

impl<J, D, W: Work<J, D>> Play<Option<Load<J, D>>, View<J>> for Post<W> {
    ghost then = { λ s m _ n. posts W.comes_of s m n };
}

/// The scheduler tries a lane for a result.
pub struct Drain<W> {
    work: PhantomData<W>,
}

impl<J, D, W: Work<J, D>> Play<Option<Load<J, D>>, View<J>> for Drain<W> {
    ghost then = { drains W.comes_of };
}

/// The scheduler gives a lane home, idle.
pub struct Clear<W> {
    work: PhantomData<W>,
}

impl<J, D, W: Work<J, D>> Play<Option<Load<J, D>>, View<J>> for Clear<W> {
    ghost then = { λ s m _ n. clears W.comes_of s m n };
}

/// A worker tries a lane for a job.
pub struct Claiming<W> {
    work: PhantomData<W>,
}

impl<J, D, W: Work<J, D>> Play<Option<Load<J, D>>, View<J>> for Claiming<W> {
    ghost then = { claims W.comes_of };
}

/// A worker gives a lane home with what came of its job.
pub struct Deliver<W> {
    work: PhantomData<W>,
}

impl<J, D, W: Work<J, D>> Play<Option<Load<J, D>>, View<J>> for Deliver<W> {
    ghost then = { λ s m _ n. delivers W.comes_of s m n };
}

/// A worker's seat is cut from the scheduler's, which keeps all that it knows.
pub struct Hire;

impl<J> Split<View<J>> for Hire {
    ghost use Rattle.hand_off.specs.Views.{newcomer};

    ghost left = { λ v. v };

    ghost right = { newcomer };
}
