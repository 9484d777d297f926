// The field, the order and the division that the operands name, and what is done under them.
ghost use Rattle.std.specs.Prelude.{◌≡◌, ℕ, true, Some as the};
ghost use Rattle.field.specs.Field.{FieldMeaning};
ghost use Rattle.monomial.specs.Order.{Compare, order_of};
ghost use Rattle.monomial.specs.Division.{Split, division_of};
ghost use Rattle.choice.specs.Choice.{Chosen, Chooses, has_variables};

use crate::operands::Operands;
use crate::unnamed::Unnamed;
use field::Field;
use field::four::Four;
use field::prime::Prime;
use monomial::WIDTH;
use monomial::degree_lexicographic::DegreeLexicographic;
use monomial::degree_reverse::DegreeReverse;
use monomial::division::Division;
use monomial::janet::Janet;
use monomial::lexicographic::Lexicographic;
use monomial::order::Order;
use monomial::thomas::Thomas;
use polynomial::ring::Ring;

// Something that can be done over any ring and division. What comes of it is what `gives` says.
pub trait Task: Drop {
    type Done;

    ghost gives: { Self → FieldMeaning → Compare → Split → ℕ → Self.Done → Type 0 };

    fn run<F: Field + Copy + Drop, O: Order + Copy + Drop, D: Division + Copy + Drop>(
        self,
        ring: Ring<F, O>,
        division: D,
    ) -> Self::Done
        ensures { gives self (F.Field.meaning ring.field) (O.Order.meaning ring.order) (D.Division.meaning division) ring.variables result };
}

// The numbers become types here and below, and nowhere else.
//
// What the task comes to under the field, the order and the division that the operands name, in 1 to 6 variables; or the
// first of the four that they do not name.
pub fn choose<T: Task>(operands: Operands, task: T) -> Result<T::Done, Unnamed>
    ensures { Chooses (T.gives task) operands result }
{
    match operands.kind {
        1 => {
            let prime = Prime::new(operands.modulus).ok_or(Unnamed::Field)?;
            choose_variables(operands, task, prime)
        }
        2 if operands.modulus == 4 => choose_variables(operands, task, Four),
        _ => Err(Unnamed::Field),
    }
}

// The same, where the field is known.
fn choose_variables<T: Task, F: Field + Copy + Drop>(
    operands: Operands,
    task: T,
    field: F,
) -> Result<T::Done, Unnamed>
    ensures { Chosen (T.gives task) operands.variables (the (F.Field.meaning field)) (has_variables operands.variables) (order_of operands.order) (division_of operands.division) result }
{
    let variables = usize::from(operands.variables);
    if variables == 0 || variables > WIDTH {
        return Err(Unnamed::Variables);
    }
    choose_order(operands, task, field)
}

// The same, where the field is known and there are 1 to 6 variables.
fn choose_order<T: Task, F: Field + Copy + Drop>(
    operands: Operands,
    task: T,
    field: F,
) -> Result<T::Done, Unnamed>
    ensures { Chosen (T.gives task) operands.variables (the (F.Field.meaning field)) true (order_of operands.order) (division_of operands.division) result }
{
    match operands.order {
        1 => choose_division(operands, task, field, Lexicographic),
        2 => choose_division(operands, task, field, DegreeLexicographic),
        3 => choose_division(operands, task, field, DegreeReverse),
        _ => Err(Unnamed::Order),
    }
}

// The same, where all but the division is known: here field and order become a ring.
fn choose_division<T: Task, F: Field + Copy + Drop, O: Order + Copy + Drop>(
    operands: Operands,
    task: T,
    field: F,
    order: O,
) -> Result<T::Done, Unnamed>
    ensures { Chosen (T.gives task) operands.variables (the (F.Field.meaning field)) true (the (O.Order.meaning order)) (division_of operands.division) result }
{
    let ring = Ring {
        field,
        order,
        variables: usize::from(operands.variables),
    };
    if operands.division == <Janet as Division>::CODE {
        Ok(task.run(ring, Janet))
    } else if operands.division == <Thomas as Division>::CODE {
        Ok(task.run(ring, Thomas))
    } else {
        Err(Unnamed::Division)
    }
}
