//! What operators give.

ghost use Rattle.std.specs.Prelude.{◌≡◌};
ghost use Rattle.es3_language.specs.Operators as o;
ghost use Rattle.es3_operators.specs.Given.{plain_given, plain_result};

use es3_heap::Value;
use es3_moves::frame::Fault;

/// What an operator gives (ES3 11.3 to 11.10): a value, a fault that stops the run, or the message of an error that is thrown.
#[derive(Drop)]
pub enum Given {
    Value(Value),
    Fault(Fault),
    Raise(&'static [u8]),
}

/// A value, or the fault that stops the run.
pub fn given_value(r: Result<Value, Fault>) -> Given
    ensures { plain_given result ≡ o.given (plain_result r) }
{
    match r {
        Ok(v) => Given::Value(v),
        Err(fault) => Given::Fault(fault),
    }
}

/// A truth value.
pub fn truth(b: bool) -> Given
    ensures { plain_given result ≡ o.gives (Value.Bool b) }
{
    Given::Value(Value::Bool(b))
}

/// A truth value, or the fault that stops the run.
pub fn given_truth(r: Result<bool, Fault>) -> Given
    ensures { plain_given result ≡ o.given_truth (plain_result r) }
{
    match r {
        Ok(b) => truth(b),
        Err(fault) => Given::Fault(fault),
    }
}

/// The other truth value, or the fault that stops the run.
pub fn given_not(r: Result<bool, Fault>) -> Given
    ensures { plain_given result ≡ o.given_not (plain_result r) }
{
    match r {
        Ok(b) => truth(!b),
        Err(fault) => Given::Fault(fault),
    }
}
