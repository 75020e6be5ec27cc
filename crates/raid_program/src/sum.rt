ghost use Rattle.std.specs.Prelude.{◌≡◌, IsTrue, Some};
ghost use Rattle.raid_program.specs.Form.{is_term, is_expr};
ghost use Rattle.raid_program.specs.Run.{term_value, with_term, expr_value};

use crate::program::{Expr, Term};

/// What the sixteen registers hold.
pub type Registers = [i64; 16];

impl Term {
    /// The term's value.
    pub fn value(self, registers: &Registers) -> i64
        requires { IsTrue (is_term self) }
        ensures { result ≡ term_value registers.now self }
    {
        match self {
            Term::Reg(k) => registers[k as usize],
            Term::Value(value) => value,
        }
    }
}

/// The sum with one more term, added or else subtracted; None exactly where it leaves i64.
fn with_term(registers: &Registers, sum: i64, add: bool, term: Term) -> Option<i64>
    requires { IsTrue (is_term term) }
    ensures { result ≡ with_term registers.now (Some sum) (add, term) }
{
    let value = term.value(registers);
    if add {
        sum.checked_add(value)
    } else {
        sum.checked_sub(value)
    }
}

impl Expr {
    /// The value of the expression, computed from left to right; None exactly where a step leaves i64.
    pub fn value(&self, registers: &Registers) -> Option<i64>
        requires { IsTrue (is_expr self.now) }
        ensures { result ≡ expr_value registers.now self.now }
    {
        let mut sum = self.first.value(registers);
        for (add, term) in self.rest.as_slice() {
            sum = with_term(registers, sum, *add, *term)?;
        }
        Some(sum)
    }
}
