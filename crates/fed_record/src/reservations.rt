//! Reservations of nodes.
ghost use Rattle.std.specs.Prelude.{◌≡◌, ◌↔◌, None, Some, IsTrue, IsSome, IfSome, refl};
ghost use Rattle.fed_model.specs.Reservation.{ReservationView};
ghost use Rattle.fed_record.specs.Reservation.{applied_reservation, joined_reservations, reservation_stands_for};
ghost use Rattle.fed_record.specs.ReservationLaws.{tells_reservations, joined_reservations_assoc, joined_reservations_comm, joined_reservations_itself, reservation_adds_change, reservation_joins_histories, reservation_stands_for_sets};
ghost use Rattle.fed_record.specs.declared.operations.Operation.{Operation};

use crate::operations::Operation;
use fed_lattice::{Causal, ExactEq, NoMemory, Register};
use fed_model::Window;
use fed_stamp::{Stamp, Version};
use std::alloc::Global;
use std::marker::Model;

/// What is read of the operations of one reservation: its greatest stamp, and its window, or no window where the
/// greatest stamped operation cancels it. A reservation of no operation is not made, and reads as none. It owns no
/// memory.
#[derive(Clone, Copy, PartialEq, Eq, Debug)]
pub struct Reservation {
    latest: Register<Option<Window>>,
}

impl Model for Reservation {
    ghost use Rattle.fed_model.specs.Reservation.{ReservationView};

    ghost Value = { ReservationView };

    ghost view = { λ r. r.latest };

    ghost inverse = { λ o. record { latest = o } };
}

impl Reservation {
    /// The reservation whose greatest stamp is this, and that stands with the window, or is cancelled where there is
    /// none.
    pub fn from_parts(stamp: Stamp, window: Option<Window>) -> Reservation
        ensures { result ≡ Some (stamp, window) }
    {
        Reservation {
            latest: Register::new(Some((stamp, window))),
        }
    }

    /// Whether it has an operation.
    pub fn is_made(&self) -> bool
        ensures { IsTrue result ↔ IsSome self.now }
    {
        self.latest.get().is_some()
    }

    /// The greatest stamp among its operations. It asks that the reservation is made.
    pub fn stamp(&self) -> Stamp
        requires { IsSome self.now }
        ensures { IfSome self.now (λ latest. result ≡ latest.0) }
    {
        let (stamp, _window) = self.latest.get().unwrap();
        stamp
    }

    /// The window that it stands with, or `None` where it is cancelled. It asks that the reservation is made.
    pub fn window(&self) -> Option<Window>
        requires { IsSome self.now }
        ensures { IfSome self.now (λ latest. result ≡ latest.1) }
    {
        let (_stamp, window) = self.latest.get().unwrap();
        window
    }
}

/// Two reservations are identical exactly where they are equal.
impl ExactEq for Reservation {
    ghost exact_eq = { tells_reservations };
}

/// A change is an operation. A `Reserve` sets its window and a `Cancel` none; every other operation leaves the
/// reservation as it is. Copies, changes and joins are never refused memory.
impl Causal for Reservation {
    type Change = Operation;

    ghost well_formed = { λ _. Unit {0} };

    ghost bottom = { None };

    ghost applied = { applied_reservation };

    ghost joined = { joined_reservations };

    ghost is_history = { λ _. Unit {0} };

    ghost stands_for = { reservation_stands_for };

    ghost is_inline = { Unit {0} };

    fn bottom(alloc: Global) -> Self {
        Reservation {
            latest: Register::bottom(alloc),
        }
    }

    fn copy(&self) -> Result<Self, NoMemory> {
        Ok(*self)
    }

    fn apply(&mut self, at: Stamp, change: &Operation) -> Result<(), NoMemory> {
        match change {
            Operation::Reserve { window } => self.latest.apply(at, &Some(*window)),
            Operation::Cancel { .. } => self.latest.apply(at, &None),
            _ => Ok(()),
        }
    }

    fn join(&self, mine: &Version, other: &Self, theirs: &Version) -> Result<Self, NoMemory> {
        Ok(Reservation {
            latest: self.latest.join(mine, &other.latest, theirs)?,
        })
    }

    ghost well_formed_bottom = { tt };

    ghost well_formed_applied = { λ _ _ _ _. tt };

    ghost well_formed_joined = { λ _ _ _ _ _ _. tt };

    ghost joined_assoc = { joined_reservations_assoc };

    ghost joined_comm = { joined_reservations_comm };

    ghost joined_itself = { joined_reservations_itself };

    ghost joined_bottoms = { λ _ _. refl };

    ghost bottom_stands = { refl };

    ghost applied_stands = { reservation_adds_change };

    ghost joined_stands = { reservation_joins_histories };

    ghost stands_same = { reservation_stands_for_sets };
}
