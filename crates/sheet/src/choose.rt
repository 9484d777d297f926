// The pair that a step takes: the first in the queue that is open, which means that its variable is not multiplicative for its
// row and that it is not marked.
//
// The contracts say what the code does on every value; that it is the chosen pair is shown of them where a step is made.
ghost use Rattle.std.specs.Prelude.{◌≡◌, ℕ, ◌<◌, ◌≤◌, vec_len, MatchOption, MatchResult};
ghost use Rattle.calls.specs.declared.refusal.Refusal.TheVariants.{NotClosed};
ghost use Rattle.sheet.specs.Marks.{rows_of};
ghost use Rattle.sheet.specs.Queueing.{pick_at, opens, Passed, Waits};

use crate::pair::Pair;
use crate::sheet::Sheet;
use calls::refusal::Refusal;
use field::Field;
use monomial::division::Division;
use monomial::order::Order;

impl<F: Field, O: Order, D: Division> Sheet<F, O, D> {
    // Whether the pair at this place of the queue is open.
    fn is_open(&self, at: usize) -> bool
        requires { at < vec_len self.now.queue.picks }
        ensures { result ≡ opens self.now.table.rows.items (rows_of self.now.marks) (pick_at self.now.queue.picks.items at) }
    {
        let pick = &self.queue.picks[at];
        let pair = Pair {
            row: pick.row,
            variable: pick.variable,
        };
        let lead = &self.table.rows[pair.row - 1].lead;
        !lead.multiplicative[pair.variable - 1] && !self.marks.has(pair)
    }

    // Where the pair that a step takes stands in the queue, or nothing where every pair is marked.
    pub(crate) fn choose(&self) -> Option<usize>
        ensures { MatchOption result (Passed self.now.table.rows.items (rows_of self.now.marks) self.now.queue.picks.items (vec_len self.now.queue.picks)) (λ at. Passed self.now.table.rows.items (rows_of self.now.marks) self.now.queue.picks.items at × Waits self.now.table.rows.items (rows_of self.now.marks) self.now.queue.picks.items at) }
    {
        for at in self.queue.next..self.queue.picks.len() {
            if self.is_open(at) {
                return Some(at);
            }
        }
        None
    }

    // Refuses while a pair is unmarked.
    pub(crate) fn check_closed(&self) -> Result<(), Refusal>
        ensures { MatchResult result (λ _. Passed self.now.table.rows.items (rows_of self.now.marks) self.now.queue.picks.items (vec_len self.now.queue.picks)) (λ refusal. (refusal ≡ NotClosed) × (at : ℕ) × Waits self.now.table.rows.items (rows_of self.now.marks) self.now.queue.picks.items at) }
    {
        match self.choose() {
            None => Ok(()),
            Some(_) => Err(Refusal::NotClosed),
        }
    }
}
