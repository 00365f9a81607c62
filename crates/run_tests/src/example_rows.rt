//! The examples of texts that run as they stand, as the files of examples/ have them, with what the README says that they write.

use command_runs::tables::gives;
use std::test::Fail;

/// examples/loops.js
static LOOPS: &str = "run ⇒ // Right triangles with whole sides: the two short ones below 20.
var triangles = [];
for (var a = 1; a < 20; a++) {
  sides: for (var b = a; b < 20; b++) {
    for (var c = b; c < 30; c++) {
      if (c * c > a * a + b * b) continue sides;
      if (c * c === a * a + b * b) triangles[triangles.length] = a + '-' + b + '-' + c;
    }
  }
}

// Halve an even number, triple an odd one and add 1: how long until 27 is 1?
var turns = 0;
for (var m = 27; m !== 1; turns++) m = m % 2 ? 3 * m + 1 : m / 2;

// The value of a text is that of its last statement.
triangles + '; 27 takes ' + turns + ' turns'; ⇒ return \"3-4-5,5-12-13,6-8-10,8-15-17,9-12-15,12-16-20; 27 takes 111 turns\"";

/// examples/prototypes.js
static PROTOTYPES: &str =
    "run ⇒ // What a function makes has the members of the function's prototype.
function Shape(name) { this.name = name; }
Shape.prototype.area = function () { return 0; };
Shape.prototype.describe = function () { return this.name + ' ' + this.area(); };

function Square(side) { this.side = side; }
Square.prototype = new Shape('square');
Square.prototype.area = function () { return this.side * this.side; };

var shapes = [new Shape('point'), new Square(3), new Square(4)];
var text = '';
for (var i = 0; i < shapes.length; i++) text += shapes[i].describe() + ', ';

// `for in` visits an object's own keys first, and then those of its prototypes, each once.
var keys = '';
for (var key in shapes[1]) keys += ' ' + key;
text + (shapes[1] instanceof Shape) + ', keys' + keys; ⇒ return \"point 0, square 9, square 16, true, keys side name area describe\"";

/// examples/errors.js
static ERRORS: &str =
    "run ⇒ // Whatever a call throws is caught here, and `finally` runs in any case.
var report = [];
function attempt(action) {
  var line = '?';
  try {
    line = 'gave ' + action();
  } catch (e) {
    line = 'threw ' + (e.name ? e.name + ' ' + e.message : e);
  } finally {
    report[report.length] = line;
  }
}

attempt(function () { return 6 / 3; });
attempt(function () { return missing; });
attempt(function () { return undefined.member; });
attempt(function () { return attempt.member(); });
attempt(function () { throw 'a text'; });
attempt(function () { try { throw 1; } finally { return 'the last word'; } });
report + ''; ⇒ return \"gave 2,threw TypeError unbound,threw TypeError no object,threw TypeError not a function,threw a text,gave the last word\"";

#[test]
fn each_example_that_runs_writes_what_is_said_of_it(rt: HostRuntime) -> Result<(), Fail> {
    assert!(rt; gives(rt.alloc(), LOOPS)?);
    assert!(rt; gives(rt.alloc(), PROTOTYPES)?);
    assert!(rt; gives(rt.alloc(), ERRORS)?);
    Ok(())
}
