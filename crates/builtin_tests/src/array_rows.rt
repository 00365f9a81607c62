//! The methods of arrays, and `Array`: the words, the text, and what it gives.

use caja_cli::Status;
use command_runs::tables::{check_ends, check_gives};
use std::test::Fail;

/// `Array` with and without `new` (ES3 15.4.1, 15.4.2): an array of the arguments, but for one number alone.
static ARRAYS: &str = "
run ⇒ Array().length; ⇒ return 0
run ⇒ new Array().length; ⇒ return 0
run ⇒ Array('3').length; ⇒ return 1
run ⇒ Array(1, 2).join(); ⇒ return \"1,2\"
run ⇒ new Array(1, 2, 3).length; ⇒ return 3
run ⇒ Array([3]).length; ⇒ return 1
run ⇒ Array(undefined).length; ⇒ return 1
run ⇒ Array(null)[0]; ⇒ return null
run ⇒ new Array('a', 'b')[1]; ⇒ return \"b\"
run ⇒ Array(true).join(); ⇒ return \"true\"
run ⇒ Array(3, undefined).length; ⇒ return 2
run ⇒ Array(); ⇒ return array main#0
run ⇒ new Array; ⇒ return array main#0
run ⇒ Array('a') instanceof Array; ⇒ return true
run ⇒ Array(1, 2).constructor === Array; ⇒ return true
run ⇒ var a = new Array('x'); a[3] = 1; a.length; ⇒ return 4
run ⇒ Array.apply(null, [1, 2]).join(); ⇒ return \"1,2\"
";

/// concat (15.4.4.4): an array gives its items, another value itself, and a hole is undefined.
static GATHERED: &str = "
run ⇒ [1, 2].concat().join(); ⇒ return \"1,2\"
run ⇒ [1, 2].concat([3], 4).join('-'); ⇒ return \"1-2-3-4\"
run ⇒ [1].concat([2, [3]])[2].length; ⇒ return 1
run ⇒ [].concat([], [[]]).length; ⇒ return 1
run ⇒ [1].concat('ab', null, undefined, true).length; ⇒ return 5
run ⇒ [1].concat({}).length; ⇒ return 2
run ⇒ var a = [1]; a.concat(a, a).join(); ⇒ return \"1,1,1\"
run ⇒ var a = [1]; a.concat() === a; ⇒ return false
run ⇒ var a = [1], b = a.concat(2); a.length + '' + b.length; ⇒ return \"12\"
run ⇒ var a = []; a[2] = 1; 0 in a.concat(); ⇒ return true
run ⇒ var a = []; a[2] = 1; a.concat(); 0 in a; ⇒ return false
run ⇒ var a = []; a[1] = 'x'; [1].concat(a).join('-'); ⇒ return \"1--x\"
run ⇒ var a = []; a[2] = 1; a.concat(5).length; ⇒ return 4
run ⇒ [].concat(Array(1, 2), 'ab').join('|'); ⇒ return \"1|2|ab\"
run ⇒ [1].concat(Math.abs)[1] === Math.abs; ⇒ return true
run ⇒ (function () { return [0].concat(arguments).length; })(1, 2); ⇒ return 2
run ⇒ [{toString: 1}].concat({valueOf: 1}).length; ⇒ return 2
run ⇒ [1].concat(2); ⇒ return array main#0
";

/// join (15.4.4.5): nothing for undefined, null and holes; the receiver's own `toString` is never asked.
static JOINED: &str = "
run ⇒ [1, 2, 3].join(); ⇒ return \"1,2,3\"
run ⇒ [1, 2, 3].join(''); ⇒ return \"123\"
run ⇒ [1, 2, 3].join(' + '); ⇒ return \"1 + 2 + 3\"
run ⇒ [1, 2].join(undefined); ⇒ return \"1,2\"
run ⇒ [1, 2].join(null); ⇒ return \"1null2\"
run ⇒ [1, 2].join(0, 9); ⇒ return \"102\"
run ⇒ [1, 2].join(['x', 'y']); ⇒ return \"1x,y2\"
run ⇒ [1, 2].join({}); ⇒ return \"1[object Object]2\"
run ⇒ [].join('-'); ⇒ return \"\"
run ⇒ [5].join('-'); ⇒ return \"5\"
run ⇒ [null, undefined, 1].join('-'); ⇒ return \"--1\"
run ⇒ [[1, 2], [3]].join(';'); ⇒ return \"1,2;3\"
run ⇒ [{}, true, 'a', Math.abs].join(); ⇒ return \"[object Object],true,a,[object Function]\"
run ⇒ var a = []; a[2] = 1; a.join('-'); ⇒ return \"--1\"
run ⇒ var a = []; a[2] = 1; a.join('-'); 0 in a; ⇒ return false
run ⇒ var a = [1, 2]; a.toString = 1; a.join('-'); ⇒ return \"1-2\"
run ⇒ var a = [1, 2]; a.toString = function () { return 'own'; }; a.join('-'); ⇒ return \"1-2\"
run ⇒ Array.prototype.toString = 1; [1, 2].join(); ⇒ return \"1,2\"
run ⇒ Array.prototype.join = 1; [1, 2] + ''; ⇒ return \"1,2\"
run ⇒ with ([1, 2]) join('-'); ⇒ return \"1-2\"
";

/// An item, or a separator, whose conversions are not the built-in ones.
static JOIN_CONVERTS: &str = "
run ⇒ [{toString: 1}].join(); ⇒ end convert
run ⇒ [1, {valueOf: 1}].join('-'); ⇒ end convert
run ⇒ [1].join({toString: 1}); ⇒ end convert
run ⇒ var a = [1]; a.toString = 1; [a].join(); ⇒ end convert
run ⇒ Array.prototype.toString = 1; [[1], 2].join(); ⇒ end convert
run ⇒ function F() {} F.prototype.toString = 1; [1, new F()].join(); ⇒ end convert
run ⇒ var a = [1]; a.push({toString: 1}); a + ''; ⇒ end convert
";

/// slice (15.4.4.10): a negative place counts from the end, and one outside the array as its nearer end.
static SLICED: &str = "
run ⇒ [1, 2, 3].slice().join(); ⇒ return \"1,2,3\"
run ⇒ [1, 2, 3].slice(1).join(); ⇒ return \"2,3\"
run ⇒ [1, 2, 3].slice(1, 2).join(); ⇒ return \"2\"
run ⇒ [1, 2, 3].slice(-2).join(); ⇒ return \"2,3\"
run ⇒ [1, 2, 3].slice(-2, -1).join(); ⇒ return \"2\"
run ⇒ [1, 2, 3].slice(0, -1).join(); ⇒ return \"1,2\"
run ⇒ [1, 2, 3].slice(2, 1).length; ⇒ return 0
run ⇒ [1, 2, 3].slice(-9, 2).join(); ⇒ return \"1,2\"
run ⇒ [1, 2, 3].slice(1, 9).join(); ⇒ return \"2,3\"
run ⇒ [1, 2, 3].slice(9).length; ⇒ return 0
run ⇒ [1, 2, 3].slice(0, -9).length; ⇒ return 0
run ⇒ [1, 2, 3].slice(undefined, 2).join(); ⇒ return \"1,2\"
run ⇒ [1, 2, 3].slice(1, undefined).join(); ⇒ return \"2,3\"
run ⇒ [1, 2, 3].slice(null, null).length; ⇒ return 0
run ⇒ [1, 2, 3].slice(true, '2', 7).join(); ⇒ return \"2\"
run ⇒ [1, 2, 3].slice(-9007199254740991, 9007199254740991).join(); ⇒ return \"1,2,3\"
run ⇒ [].slice(-1).length; ⇒ return 0
run ⇒ var a = [1]; a.slice() === a; ⇒ return false
run ⇒ var a = [[1]]; a.slice()[0] === a[0]; ⇒ return true
run ⇒ var a = []; a[2] = 1; var b = a.slice(1); (0 in b) + '' + b.length; ⇒ return \"true2\"
run ⇒ [1].slice(); ⇒ return array main#0
";

/// A place that no number writes.
static SLICE_FAULTS: &str = "
run ⇒ [1].slice('x'); ⇒ end number
run ⇒ [1].slice(0, {}); ⇒ end number
run ⇒ [].slice([1, 2]); ⇒ end number
run ⇒ [1].slice('9007199254740992'); ⇒ end number
";

/// push and unshift (15.4.4.7, 15.4.4.13) answer the new length, also without an argument; holes become items.
static PUSHED: &str = "
run ⇒ [].push(); ⇒ return 0
run ⇒ [].push(1); ⇒ return 1
run ⇒ [1].push(2, 3); ⇒ return 3
run ⇒ var a = [1]; a.push(2); a.join(); ⇒ return \"1,2\"
run ⇒ var a = []; a.push([1], [2]); a.length; ⇒ return 2
run ⇒ var a = []; a.push(undefined); a.length; ⇒ return 1
run ⇒ var a = []; a.push(a); a[0] === a; ⇒ return true
run ⇒ var a = []; a.push(1, 2, 3, 4, 5, 6, 7, 8); a.join(''); ⇒ return \"12345678\"
run ⇒ var a = []; a[2] = 1; a.push(); ⇒ return 3
run ⇒ var a = []; a[2] = 1; a.push(); 0 in a; ⇒ return true
run ⇒ var a = []; a[2] = 1; a.push(5); a.join('-'); ⇒ return \"--1-5\"
run ⇒ var a = []; a['01'] = 'x'; a.push(1); a['01'] + a.length; ⇒ return \"x1\"
run ⇒ var a = [1]; a[a.push(2)] = 3; a.join(); ⇒ return \"1,2,3\"
run ⇒ [].unshift(); ⇒ return 0
run ⇒ [3].unshift(1, 2); ⇒ return 3
run ⇒ var a = [3]; a.unshift(1, 2); a.join(); ⇒ return \"1,2,3\"
run ⇒ var a = [1]; a.unshift(); a.join(); ⇒ return \"1\"
run ⇒ var a = []; a[1] = 'x'; a.unshift('y'); a.join('-'); ⇒ return \"y--x\"
run ⇒ var a = []; a[2] = 1; a.unshift(); 1 in a; ⇒ return true
run ⇒ var a = [1, 2]; a.x = 5; a.unshift(0); a.x + a.join(''); ⇒ return \"5012\"
";

/// pop and shift (15.4.4.6, 15.4.4.9) answer the item that they take, and undefined where there is none.
static TAKEN: &str = "
run ⇒ [].pop(); ⇒ return undefined
run ⇒ [1].pop(); ⇒ return 1
run ⇒ [1, 2].pop(9); ⇒ return 2
run ⇒ var a = [1, 2]; a.pop(); a.join() + a.length; ⇒ return \"11\"
run ⇒ var a = [1, 2]; a.pop(); 1 in a; ⇒ return false
run ⇒ var a = []; a.pop(); a.length; ⇒ return 0
run ⇒ var a = []; a[2] = 1; a.pop(); a.length; ⇒ return 2
run ⇒ var a = []; a[2] = 1; a.pop(); (0 in a) + '' + (1 in a) + (2 in a); ⇒ return \"truetruefalse\"
run ⇒ var a = [1, 2]; delete a[1]; a.pop(); ⇒ return undefined
run ⇒ var a = [1, 2]; delete a[1]; a.pop(); a.length; ⇒ return 1
run ⇒ [].shift(); ⇒ return undefined
run ⇒ [1, 2].shift(); ⇒ return 1
run ⇒ var a = [1]; a.shift('x'); a.length; ⇒ return 0
run ⇒ var a = [1, 2, 3]; a.shift(); a.join(); ⇒ return \"2,3\"
run ⇒ var a = []; a.shift(); a.length; ⇒ return 0
run ⇒ var a = []; a[1] = 'x'; a.shift(); ⇒ return undefined
run ⇒ var a = []; a[2] = 'x'; a.shift(); a.join('-'); ⇒ return \"-x\"
run ⇒ var a = []; a[2] = 'x'; a.shift(); 0 in a; ⇒ return true
run ⇒ var a = [1, 2, 3], s = ''; while (a.length) s += a.pop() + '' + (a.shift() || 0); s; ⇒ return \"3120\"
run ⇒ var a = [[1]], b = a[0]; a.pop() === b; ⇒ return true
";

/// reverse (15.4.4.8) turns the array itself, and leaves no hole.
static TURNED: &str = "
run ⇒ [1, 2, 3].reverse().join(); ⇒ return \"3,2,1\"
run ⇒ [1, 2, 3, 4].reverse(9).join(''); ⇒ return \"4321\"
run ⇒ var a = [1, 2]; a.reverse() === a; ⇒ return true
run ⇒ [].reverse().length; ⇒ return 0
run ⇒ [1].reverse()[0]; ⇒ return 1
run ⇒ var a = []; a[2] = 'x'; a.reverse().join('-'); ⇒ return \"x--\"
run ⇒ var a = []; a[2] = 'x'; a.reverse(); 2 in a; ⇒ return true
run ⇒ var a = [1, 2]; a.x = 3; a.reverse(); a.x; ⇒ return 3
run ⇒ [1].reverse(); ⇒ return array ?
run ⇒ Array(1, 2).reverse(); ⇒ return array main#0
";

/// `for in` over arrays: an item that is there keeps its place among the keys, and a new one goes last.
static ORDER: &str = "
run ⇒ var a = [], s = ''; a[1] = 1; for (var k in a) s += k; s; ⇒ return \"1\"
run ⇒ var a = [], s = ''; a[2] = 1; a[0] = 1; a.push(1); for (var k in a) s += k; s; ⇒ return \"2013\"
run ⇒ var a = [], s = ''; a[2] = 1; a.push(); for (var k in a) s += k; s; ⇒ return \"201\"
run ⇒ var a = [1], s = ''; a.x = 2; a.push(3); for (var k in a) s += k; s; ⇒ return \"0x1\"
run ⇒ var a = [1, 2], s = ''; a.x = 1; a.pop(); a.push(5); for (var k in a) s += k; s; ⇒ return \"0x1\"
run ⇒ var a = [], s = ''; a[1] = 1; a[0] = 2; a.reverse(); for (var k in a) s += k + a[k]; s; ⇒ return \"1201\"
run ⇒ var a = [], s = ''; a[2] = 'a'; a[1] = 'b'; a[0] = 'c'; a.shift(); for (var k in a) s += k + a[k]; s; ⇒ return \"1a0b\"
run ⇒ var a = [1, 2, 3], s = ''; a.unshift(0); for (var k in a) s += k; s; ⇒ return \"0123\"
run ⇒ var a = [], s = ''; a[1] = 1; a.x = 1; a.unshift(0); for (var k in a) s += k; s; ⇒ return \"1x02\"
run ⇒ var s = ''; for (var k in [7, 8].concat(9)) s += k; s; ⇒ return \"012\"
run ⇒ var a = [], s = ''; a[1] = 1; a[0] = 1; for (var k in a.slice()) s += k; s; ⇒ return \"01\"
run ⇒ var s = ''; for (var k in []) s += k; s; ⇒ return \"\"
run ⇒ Array.prototype.x = 1; var s = ''; for (var k in [5]) s += k; s; ⇒ return \"0x\"
run ⇒ var a = [1, 2, 3], s = ''; for (var k in a) { s += k; a.pop(); } s; ⇒ return \"01\"
run ⇒ var a = [1], s = ''; for (var k in a) { s += k; a.push(k); } s + a.length; ⇒ return \"02\"
";

/// Arrays 32 deep in one another have a text, and what asks for no text has no bound.
static DEEP: &str = "
run ⇒ var a = []; for (var i = 0; i < 31; i++) a = [a]; String(a) + a.join() + a.toString() + Number(a); ⇒ return \"0\"
run ⇒ var a = [7]; for (var i = 0; i < 31; i++) a = [a]; a.join('-') + a; ⇒ return \"77\"
run ⇒ var a = [7, 8]; for (var i = 0; i < 31; i++) a = [a]; a.join('-') + 'x'.concat(a); ⇒ return \"7,8x7,8\"
run ⇒ var a = []; for (var i = 0; i < 31; i++) a = [a]; Error(a).message; ⇒ return \"\"
run ⇒ var a = []; for (var i = 0; i < 40; i++) a = [a]; Boolean(a); ⇒ return true
run ⇒ var a = []; for (var i = 0; i < 40; i++) a = [a]; a.concat(1).reverse().push(a); ⇒ return 3
run ⇒ var a = []; for (var i = 0; i < 40; i++) a = [a]; Object(a) === a; ⇒ return true
";

/// Arrays 33 deep in one another, and an array in itself, have no text.
static TOO_DEEP: &str = "
run ⇒ var a = []; for (var i = 0; i < 32; i++) a = [a]; String(a); ⇒ end depth
run ⇒ var a = []; for (var i = 0; i < 32; i++) a = [a]; a.join(); ⇒ end depth
run ⇒ var a = []; for (var i = 0; i < 32; i++) a = [a]; a.toString(); ⇒ end depth
run ⇒ var a = []; for (var i = 0; i < 32; i++) a = [a]; Number(a); ⇒ end depth
run ⇒ var a = []; for (var i = 0; i < 32; i++) a = [a]; Math.abs(a); ⇒ end depth
run ⇒ var a = []; for (var i = 0; i < 32; i++) a = [a]; Error(a); ⇒ end depth
run ⇒ var a = []; for (var i = 0; i < 32; i++) a = [a]; 'x'.concat(a); ⇒ end depth
run ⇒ var a = []; for (var i = 0; i < 32; i++) a = [a]; 'x'.charAt(a); ⇒ end depth
run ⇒ var a = []; for (var i = 0; i < 32; i++) a = [a]; 'x'.indexOf(a); ⇒ end depth
run ⇒ var a = []; for (var i = 0; i < 32; i++) a = [a]; 'x'.split(a); ⇒ end depth
run ⇒ var a = []; for (var i = 0; i < 32; i++) a = [a]; [1].join(a); ⇒ end depth
run ⇒ var a = []; for (var i = 0; i < 32; i++) a = [a]; [a, {toString: 1}].join(); ⇒ end depth
run ⇒ var a = []; for (var i = 0; i < 32; i++) a = [a]; Object.prototype.toString.call(a); ⇒ end depth
run ⇒ var a = [1]; a.push(a); a.join(); ⇒ end depth
run ⇒ var a = [1]; a.unshift(a); try { String(a); } catch (e) { 1; } ⇒ end depth
";

/// What is met first counts: conversions are looked for before the depth of an array.
static DEEP_CONVERTS: &str = "
run ⇒ var a = []; for (var i = 0; i < 32; i++) a = [a]; [{toString: 1}, a].join(); ⇒ end convert
run ⇒ var a = []; a.toString = 1; for (var i = 0; i < 32; i++) a = [a]; String(a); ⇒ end convert
";

#[test]
fn array_makes_an_array_of_its_arguments(rt: HostRuntime) -> Result<(), Fail> {
    check_gives(rt.alloc(), ARRAYS)
}

#[test]
fn concat_and_slice_make_a_new_array(rt: HostRuntime) -> Result<(), Fail> {
    check_gives(rt.alloc(), GATHERED)?;
    check_gives(rt.alloc(), SLICED)?;
    check_ends(rt.alloc(), SLICE_FAULTS, Status::Number)
}

#[test]
fn join_is_the_text_of_the_items(rt: HostRuntime) -> Result<(), Fail> {
    check_gives(rt.alloc(), JOINED)?;
    check_ends(rt.alloc(), JOIN_CONVERTS, Status::Convert)
}

#[test]
fn push_and_unshift_answer_the_length(rt: HostRuntime) -> Result<(), Fail> {
    check_gives(rt.alloc(), PUSHED)
}

#[test]
fn pop_and_shift_answer_an_item(rt: HostRuntime) -> Result<(), Fail> {
    check_gives(rt.alloc(), TAKEN)
}

#[test]
fn reverse_turns_the_array_itself(rt: HostRuntime) -> Result<(), Fail> {
    check_gives(rt.alloc(), TURNED)
}

#[test]
fn items_keep_their_place_among_the_keys(rt: HostRuntime) -> Result<(), Fail> {
    check_gives(rt.alloc(), ORDER)
}

#[test]
fn arrays_have_texts_up_to_32_deep(rt: HostRuntime) -> Result<(), Fail> {
    check_gives(rt.alloc(), DEEP)?;
    check_ends(rt.alloc(), TOO_DEEP, Status::Depth)?;
    check_ends(rt.alloc(), DEEP_CONVERTS, Status::Convert)
}
