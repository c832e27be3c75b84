// The order in which the live snapshots were made.
ghost use Rattle.std.specs.Prelude.{◌≡◌, ◌<◌, ◌≤◌, [], ◌∷◌, ◌++◌, length, filter};
ghost use Rattle.table.specs.Tables.{but};

use std::marker::Model;

// Their numbers, the one made first at the front. It is no `ArrayVec`: that is not `Copy`, and the table is.
#[derive(Clone, Copy, Debug, PartialEq, Eq)]
pub(crate) struct Order {
    places: [u8; 64],
    count: usize,
}

impl Model for Order {
    ghost use Rattle.std.specs.Prelude.{◌≡◌, ◌≤◌, ◌++◌, length, take, drop};
    ghost use Rattle.std.proofs.Common.{arith, take-append-drop, length-take-le};
    ghost use Rattle.table.specs.Orders.{Numbers};

    ghost Value = { Numbers };

    ghost view = { λ o. record { made = take o.count o.places; spare = drop o.count o.places } };

    ghost invariant = { λ o. (o.count ≤ 64) × (length o.places ≡ 64) };

    ghost inverse = { λ n. record { places = n.made ++ n.spare; count = length n.made } };

    ghost inverse_ok = { λ o h i. record {
      places = take-append-drop o.count o.places i;
      count = length-take-le o.count o.places (omega (arith, h.0, h.1)) i;
    } };
}

impl Order {
    // No number yet.
    pub(crate) fn new() -> Order
        ensures { result.made ≡ [] }
    {
        Order {
            places: [0; 64],
            count: 0,
        }
    }

    // The numbers.
    pub(crate) fn numbers(&self) -> &[u8]
        ensures value { result.now ≡ self.now.made }
        ensures few { length result.now ≤ 64 }
    {
        &self.places[..self.count]
    }

    // Adds a number that comes last, where there is room for one more.
    pub(crate) fn push(&mut self, number: u8)
        ensures made { length self.old.made < 64 → self.new.made ≡ self.old.made ++ (number ∷ []) }
        ensures few { length self.new.made ≤ 64 }
    {
        if self.count < self.places.len() {
            self.places[self.count] = number;
            self.count += 1;
        }
    }

    // Strikes a number.
    pub(crate) fn strike(&mut self, number: u8)
        ensures made { self.new.made ≡ filter (but number) self.old.made }
        ensures few { length self.new.made ≤ 64 }
    {
        let mut kept = Order::new();
        for other in self.numbers() {
            if *other != number {
                kept.push(*other);
            }
        }
        *self = kept;
    }
}
