//! What each step on the table tells. These types are for the proofs alone.
ghost use Rattle.std.specs.Prelude.{Option, None};
ghost use Rattle.plant_lock.specs.Law.{ticketed, looked, took, counted, served, numbered, daughter, joined, spent, settled};

use crate::chronicle::Chronicle;
use crate::view::View;
use atomic_table::{Join, Play, Split};
use std::marker::{Brand, PhantomData};

/// A frame that a step names.
pub(crate) trait Framed<F> {
    ghost frame: { Option F };
}

impl<F> Framed<F> for Brand {
    ghost frame = { None };
}

pub(crate) struct Ticket;

impl<S, E> Play<Option<S>, View<E>> for Ticket {
    ghost then = { ticketed };
}

pub(crate) struct Look<S> {
    of: PhantomData<S>,
}

impl<S: Chronicle> Play<Option<S>, View<<S as Chronicle>::Entry>> for Look<S> {
    ghost then = { looked S.by };
}

pub(crate) struct Take<S, J> {
    of: PhantomData<(S, J)>,
}

impl<S: Chronicle, J: Framed<<S as Chronicle>::Frame>> Play<
    Option<S>,
    View<<S as Chronicle>::Entry>,
> for Take<S, J> {
    ghost then = { took S.entries S.frame J.frame };
}

pub(crate) struct Count<S> {
    of: PhantomData<S>,
}

impl<S: Chronicle> Play<Option<S>, View<<S as Chronicle>::Entry>> for Count<S> {
    ghost then = { counted S.entries S.by };
}

pub(crate) struct Serve;

impl<S, E> Play<Option<S>, View<E>> for Serve {
    ghost then = { served };
}

pub(crate) struct Number<S> {
    of: PhantomData<S>,
}

impl<S: Chronicle> Play<Option<S>, View<<S as Chronicle>::Entry>> for Number<S> {
    ghost then = { numbered S.by };
}

/// A seat that has seen as much, with no number or ticket.
pub(crate) struct Daughter;

impl<E> Split<View<E>> for Daughter {
    ghost left = { λ v. v };

    ghost right = { daughter };
}

/// A seat that has seen the longer of both.
pub(crate) struct Learn;

impl<E> Join<View<E>> for Learn {
    ghost both = { joined };

    ghost spent = { spent };
}

pub(crate) struct Settle<S> {
    of: PhantomData<S>,
}

impl<S: Chronicle> Play<Option<S>, View<<S as Chronicle>::Entry>> for Settle<S> {
    ghost then = { settled S.by };
}
