//! The values of statements one after another (ES3 12.1, 14).

ghost use Rattle.std.specs.Prelude.{◌≡◌};
ghost use Rattle.es3_language.specs.Lists as lists;
ghost use Rattle.es3_moves.specs.Moves.{keeps};

use es3_heap::Value;
use es3_moves::frame::End;

/// The later value of two (ES3 12.1).
pub fn later(v: Option<Value>, before: Option<Value>) -> Option<Value>
    ensures { result ≡ lists.later v before }
{
    match v {
        Some(v) => Some(v),
        None => before,
    }
}

/// What a list keeps of the value so far: a program keeps none from one element to the next (ES3 14).
pub fn kept(end: &End, acc: Option<Value>) -> Option<Value>
    ensures { result ≡ lists.kept_value (keeps end.now) acc }
{
    match end {
        End::Program => None,
        End::Block => acc,
        End::Body => acc,
        End::New(_) => acc,
        End::Try(_) => acc,
        End::Catch(_, _) => acc,
        End::Finally(_) => acc,
        End::Cases(_, _, _, _) => acc,
    }
}
