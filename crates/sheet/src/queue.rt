// Every row of a sheet with each variable, in the order in which steps take them: the pair whose row's leading monomial times its
// variable is smaller comes first, and of two with one such product the one of the lower row. Those at a multiplicative variable
// stand among them, since that may change with the next row; they are not open.
//
// A step marks the first pair that is open. So the pairs before it stay closed until a row is appended, and no step looks at
// them again. The contracts here say what the code does on every value; that the first open pair is the chosen one is shown of
// them where a step is made.
ghost use Rattle.std.specs.Prelude.{◌≡◌, ℕ, ◌+◌, ◌≤◌, List, [], ◌∷◌, ◌++◌, length, IfOk, vec_len, vec_capacity};
ghost use Rattle.monomial.specs.Monomial.{Wide, width};
ghost use Rattle.monomial.specs.Division.{Within, member};
ghost use Rattle.involutive.specs.Sheet.{most_rows};
ghost use Rattle.sheet.specs.Queueing.{capped_raise, Filled, Queued};

use monomial::order::Order;
use monomial::{Monomial, WIDTH};
use polynomial::check::MOST_ROWS;
use std::alloc::{AllocError, Global};

// The most pairs that a sheet has.
const MOST_PAIRS: usize = MOST_ROWS * WIDTH;

// A pair, and its row's leading monomial times its variable. The pair's numbers stand here by themselves and not as a `Pair`,
// so that the definitions can speak of any.
#[derive(Clone, Copy)]
pub(crate) struct Pick {
    pub(crate) row: usize,
    pub(crate) variable: usize,
    pub(crate) height: Monomial,
}

// All pairs in their order, and how many of them no step has to look at.
#[derive(Drop)]
pub(crate) struct Queue {
    pub(crate) picks: Vec<Pick>,
    pub(crate) next: usize,
    ghost room: { 192 ≤ vec_capacity picks },
    ghost inside: { next ≤ vec_len picks },
}

// m times variable v. An exponent of 255 stays: no leading monomial of a sheet has one above 40. Not by `Monomial::product`,
// which has an answer for where an exponent does not fit: here there is none. No pair: of the row the monomial is all that
// is asked.
fn raise(m: &Monomial, v: usize) -> Monomial
    requires { Within v width }
    ensures { result.exponents ≡ capped_raise m.now.exponents v }
{
    let mut raised = *m;
    raised.exponents[v - 1] = m.exponents[v - 1].saturating_add(1);
    raised
}

impl Queue {
    // No pairs, or want of memory.
    pub(crate) fn new(heap: Global) -> Result<Queue, AllocError>
        ensures { IfOk result (λ queue. (queue.picks.items ≡ []) × (queue.next ≡ 0)) }
    {
        let picks = Vec::with_capacity(heap, MOST_PAIRS)?;
        Ok(Queue { picks, next: 0 })
    }

    // One pair of the newest row more: behind those whose height is not above its own.
    fn insert<O: Order>(&mut self, order: &O, pick: Pick)
        ensures next { self.new.next ≡ self.old.next }
        ensures filled { (n : ℕ) (leads : List (List ℕ)) (N : ℕ) → Filled (O.Order.meaning order.now) n leads N pick.variable self.old.picks.items → length leads ≡ N + 1 → N + 1 ≤ most_rows → n ≤ width → pick.row ≡ N + 1 → Within pick.variable n → pick.height.exponents ≡ capped_raise (member leads pick.row) pick.variable → Filled (O.Order.meaning order.now) n leads N (pick.variable + 1) self.new.picks.items }
    {
        let height = pick.height;
        let at = self
            .picks
            .partition_point(|p| !order.compare(&height, &p.height).is_lt());
        let _ = self.picks.insert(at, pick);
    }

    // One row more, at so many variables: its pairs find their places, and every pair has to be looked at anew. The loop counts
    // from 0: `1..=variables` is left from within its last round, and what a round does would have to be shown twice.
    pub(crate) fn push_row<O: Order>(
        &mut self,
        order: &O,
        variables: usize,
        row: usize,
        lead: &Monomial,
    )
        requires { variables ≤ width }
        ensures next { self.new.next ≡ 0 }
        ensures queued { (leads : List (List ℕ)) → Queued (O.Order.meaning order.now) variables leads self.old.picks.items → length leads + 1 ≡ row → row ≤ most_rows → Wide lead.now.exponents → Queued (O.Order.meaning order.now) variables (leads ++ lead.now.exponents ∷ []) self.new.picks.items }
    {
        self.next = 0;
        for i in 0..variables {
            let v = i + 1;
            let pick = Pick {
                row,
                variable: v,
                height: raise(lead, v),
            };
            self.insert(order, pick);
        }
    }
}
