// The two orders in which the first of a window is sought: ≤ for the least, ≥ for the greatest.
ghost use Rattle.std.specs.Prelude.{◌≡◌, Bool, ℤ};
ghost use Rattle.std.specs.Int.Signed.{le_z};
ghost use Rattle.numbers.specs.Order.{Total, at_least};
ghost use Rattle.numbers.proofs.IntOrder.{total_≤, total_≥};
ghost use Rattle.min_max_ring.specs.Extremes.{order_by};

// A total order of levels. Its functions are known when the program is compiled, so each order has loops of its own,
// with a single comparison where `before` is called.
pub(crate) trait Order {
    ghost le: { ℤ → ℤ → Bool };

    // Whether a comes before b, or is b.
    fn before(a: i64, b: i64) -> bool
        ensures { result ≡ le a b };

    // What `three_cells` takes for the order.
    fn greatest() -> bool
        ensures { order_by result ≡ le };

    // What each `impl` must prove.
    ghost total: { Total le };
}

// The order whose first level is the least.
pub(crate) struct Least;

impl Order for Least {
    ghost le = { le_z };

    ghost total = { total_≤ };

    fn before(a: i64, b: i64) -> bool {
        a <= b
    }

    fn greatest() -> bool {
        false
    }
}

// The order whose first level is the greatest.
pub(crate) struct Greatest;

impl Order for Greatest {
    ghost le = { at_least };

    ghost total = { total_≥ };

    fn before(a: i64, b: i64) -> bool {
        b <= a
    }

    fn greatest() -> bool {
        true
    }
}
