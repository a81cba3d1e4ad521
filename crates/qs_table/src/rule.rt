//! The rule of the shared words, and what each step on them tells its seat.
use crate::view::Bundle;
use atomic_table::{Join, Play, Split, TableRule};
use qs_core::Work;
use std::marker::PhantomData;
use std::snapshot::Snapshot;

/// What the shared words are told once: their work, and for how many seats they are.
#[derive(Drop)]
pub struct About<W> {
    pub work: Snapshot<W>,
    pub seats: u32,
}

/// The rule.
pub struct LockRule<W> {
    work: PhantomData<W>,
}

impl<W: Work> TableRule<Option<W::Block>, Bundle<W::Plan>, About<W>> for LockRule<W> {
    ghost use Rattle.qs_table.specs.Rule.{Shows};
    ghost use Rattle.qs_table.specs.Views.{all_seats};

    ghost holds = { λ key. Shows (W.shape (W.plan key.work.value)) (W.fits (W.plan key.work.value)) W.done key.seats };

    ghost first = { λ key. all_seats (W.plan key.work.value) key.seats };
}

/// A bundle is cut into its first seat and the others.
pub(crate) struct First;

impl<P> Split<Bundle<P>> for First {
    ghost use Rattle.qs_table.specs.inner.Plays.{first_alone, without_first};

    ghost left = { first_alone };

    ghost right = { without_first };
}

/// Two bundles become one.
pub(crate) struct Whole;

impl<P> Join<Bundle<P>> for Whole {
    ghost use Rattle.qs_table.specs.Views.{no_seats};
    ghost use Rattle.qs_table.specs.inner.Plays.{together};

    ghost both = { together };

    ghost spent = { no_seats };
}

/// A lock.
pub(crate) struct Locks<W> {
    work: PhantomData<W>,
}

impl<W: Work> Play<Option<W::Block>, Bundle<W::Plan>> for Locks<W> {
    ghost use Rattle.qs_table.specs.inner.Plays.{Locked};

    ghost then = { Locked W.shape };
}

/// A raise.
pub(crate) struct Raises<W> {
    work: PhantomData<W>,
}

impl<W: Work> Play<Option<W::Block>, Bundle<W::Plan>> for Raises<W> {
    ghost use Rattle.qs_core.specs.declared.event.Step.TheVariants.{Raise};
    ghost use Rattle.qs_table.specs.inner.Plays.{Moved};

    ghost then = { λ st me found after. Moved W.shape st me found after Raise };
}

/// A lower.
pub(crate) struct Lowers<W> {
    work: PhantomData<W>,
}

impl<W: Work> Play<Option<W::Block>, Bundle<W::Plan>> for Lowers<W> {
    ghost use Rattle.qs_core.specs.declared.event.Step.TheVariants.{Lower};
    ghost use Rattle.qs_table.specs.inner.Plays.{Moved};

    ghost then = { λ st me found after. Moved W.shape st me found after Lower };
}

/// An unlock.
pub(crate) struct Unlocks<W> {
    work: PhantomData<W>,
}

impl<W: Work> Play<Option<W::Block>, Bundle<W::Plan>> for Unlocks<W> {
    ghost use Rattle.qs_core.specs.declared.event.Step.TheVariants.{Unlock};
    ghost use Rattle.qs_table.specs.inner.Plays.{Moved};

    ghost then = { λ st me found after. Moved W.shape st me found after Unlock };
}

/// A look at two seats in one bundle.
pub(crate) struct Looks<W> {
    work: PhantomData<W>,
}

impl<W: Work> Play<Option<W::Block>, Bundle<W::Plan>> for Looks<W> {
    ghost use Rattle.qs_table.specs.inner.Plays.{Met};

    ghost then = { Met W.shape };
}

/// A fetch.
pub(crate) struct Fetches<W> {
    work: PhantomData<W>,
}

impl<W: Work> Play<Option<W::Block>, Bundle<W::Plan>> for Fetches<W> {
    ghost use Rattle.qs_table.specs.inner.Plays.{Took};

    ghost then = { λ st me found after. Took W.shape st me found after W.fits W.done };
}

/// A look at which the slot at hand goes back into the table.
pub(crate) struct LaysDown<W> {
    work: PhantomData<W>,
}

impl<W: Work> Play<Option<W::Block>, Bundle<W::Plan>> for LaysDown<W> {
    ghost use Rattle.qs_table.specs.inner.Plays.{LaidDown};

    ghost then = { LaidDown W.shape };
}

/// A look at which the slot of a leaf that is out comes to hand.
pub(crate) struct TakesUp<W> {
    work: PhantomData<W>,
}

impl<W: Work> Play<Option<W::Block>, Bundle<W::Plan>> for TakesUp<W> {
    ghost use Rattle.qs_table.specs.inner.Plays.{TakenUp};

    ghost then = { TakenUp W.shape };
}

/// A return.
pub(crate) struct Returns<W> {
    work: PhantomData<W>,
}

impl<W: Work> Play<Option<W::Block>, Bundle<W::Plan>> for Returns<W> {
    ghost use Rattle.qs_table.specs.inner.Plays.{Brought};

    ghost then = { Brought W.shape };
}

/// A claim.
pub(crate) struct Claims<W> {
    work: PhantomData<W>,
}

impl<W: Work> Play<Option<W::Block>, Bundle<W::Plan>> for Claims<W> {
    ghost use Rattle.qs_table.specs.inner.Plays.{Asked};

    ghost then = { Asked W.shape };
}

/// A release.
pub(crate) struct Releases<W> {
    work: PhantomData<W>,
}

impl<W: Work> Play<Option<W::Block>, Bundle<W::Plan>> for Releases<W> {
    ghost use Rattle.qs_table.specs.inner.Plays.{Released};

    ghost then = { Released W.shape };
}
