//! What arrays and records keep, in texts that run as they stand: the order in which keys are visited, which is that of their making,
//! and what stands at an index, whichever way the items were written.

use command_runs::tables::check_gives;
use std::test::Fail;

/// The keys of an array, in the order in which they were made, and its length (ES3 12.6.4, 15.4.5.1).
static ARRAYS: &str = "
run ⇒ var a = []; a[2] = 1; a[0] = 2; var t = \"\"; for (var k in a) { t += k; } t + a.length; ⇒ return \"203\"
run ⇒ var a = []; for (var i = 0; i < 4; i++) a[i] = i; var t = ''; for (var k in a) t += k + ' '; t + a.length; ⇒ return \"0 1 2 3 4\"
run ⇒ var a = []; for (var i = 5; i > 0; i--) a[i] = i; var t = ''; for (var k in a) t += k + ' '; t + a.length; ⇒ return \"5 4 3 2 1 6\"
run ⇒ var a = [7, 8, 9]; a[1] = 5; var t = ''; for (var k in a) t += k + ' '; t + a[1]; ⇒ return \"0 1 2 5\"
run ⇒ var a = [7, 8, 9]; delete a[1]; var t = ''; for (var k in a) t += k + ' '; t + a.length; ⇒ return \"0 2 3\"
run ⇒ var a = [7, 8, 9]; delete a[1]; a[1] = 5; var t = ''; for (var k in a) t += k + ' '; t + a[1]; ⇒ return \"0 2 1 5\"
run ⇒ var a = [7, 8, 9]; delete a[2]; a[2] = 5; var t = ''; for (var k in a) t += k + ' '; t + a[2]; ⇒ return \"0 1 2 5\"
run ⇒ var a = [7, 8, 9]; delete a[0]; a[3] = 5; var t = ''; for (var k in a) t += k + ' '; t + a[3]; ⇒ return \"1 2 3 5\"
run ⇒ var a = [7, 8, 9]; delete a[0]; delete a[1]; delete a[2]; var t = ''; for (var k in a) t += k + ' '; t + a.length; ⇒ return \"3\"
run ⇒ var a = [7]; a.x = 1; a[1] = 8; var t = ''; for (var k in a) t += k + ' '; t + a.length; ⇒ return \"0 x 1 2\"
run ⇒ var a = [7]; a.x = 1; delete a.x; a[1] = 8; a.x = 2; var t = ''; for (var k in a) t += k + ' '; t + a.length; ⇒ return \"0 1 x 2\"
run ⇒ var a = [7]; a[4] = 8; a[1] = 9; var t = ''; for (var k in a) t += k + ' '; t + a.length; ⇒ return \"0 4 1 5\"
run ⇒ var a = [7, 8]; a['01'] = 9; a['1'] = 5; var t = ''; for (var k in a) t += k + ' '; t + a[1] + a.length; ⇒ return \"0 1 01 52\"
run ⇒ var a = [7]; a[4294967295] = 8; var t = ''; for (var k in a) t += k + ' '; t + a.length; ⇒ return \"0 4294967295 1\"
run ⇒ var a = [7]; a[4294967294] = 8; var t = ''; for (var k in a) t += k + ' '; t + a.length; ⇒ return \"0 4294967294 4294967295\"
run ⇒ var a = [7]; a[-1] = 8; var t = ''; for (var k in a) t += k + ' '; t + a.length; ⇒ return \"0 -1 1\"
run ⇒ var a = [7, 8, 9]; a.length = 1; a.length + ' ' + a[2]; ⇒ return \"3 9\"
";

/// A place that nothing was written to, or that was emptied, has no item: what stands there is the prototype's (ES3 8.6.2.1).
static HOLES: &str = "
run ⇒ var a = []; a[2] = 1; a[1]; ⇒ return undefined
run ⇒ var a = []; a[2] = 1; [0 in a, 1 in a, 2 in a, 3 in a].join(' '); ⇒ return \"false false true false\"
run ⇒ var a = [7, 8, 9]; delete a[1]; [a[1], 1 in a, 2 in a].join(' '); ⇒ return \" false true\"
run ⇒ Array.prototype[1] = 'above'; var a = [7, 8, 9]; delete a[1]; a[1]; ⇒ return \"above\"
run ⇒ Array.prototype[1] = 'above'; var a = []; a[0] = 7; a[2] = 9; a[1]; ⇒ return \"above\"
run ⇒ Array.prototype[1] = 'above'; var a = [7, 8, 9]; delete a[1]; a[1] = 5; a[1]; ⇒ return 5
run ⇒ var a = [7, 8, 9]; delete a[1]; delete a[1]; ⇒ return true
run ⇒ var a = [7]; delete a.length; ⇒ return false
";

/// The keys of a record, in the order in which they were made, many or few.
static RECORDS: &str = "
run ⇒ var o = {}; o.b = 1; o.a = 2; o.b = 3; delete o.b; o.b = 4; var t = ''; for (var k in o) t += k; t + o.b; ⇒ return \"ab4\"
run ⇒ var o = {}; o[1] = 7; o[0] = 8; var t = ''; for (var k in o) t += k + ' '; t + o[0]; ⇒ return \"1 0 8\"
run ⇒ var o = {0: 7, a: 8, 1: 9}; var t = ''; for (var k in o) t += k + ' '; t + o[1]; ⇒ return \"0 a 1 9\"
run ⇒ var o = {a: 1, b: 2, c: 3, d: 4, e: 5, f: 6, g: 7, h: 8, i: 9, j: 10}; delete o.c; var t = ''; for (var k in o) t += k + o[k]; t; ⇒ return \"a1b2d4e5f6g7h8i9j10\"
run ⇒ var o = {a: 1, b: 2, c: 3, d: 4, e: 5, f: 6, g: 7, h: 8, i: 9}; delete o.c; delete o.a; o.c = 0; var t = ''; for (var k in o) t += k + o[k]; t; ⇒ return \"b2d4e5f6g7h8i9c0\"
run ⇒ var o = {}; for (var i = 0; i < 40; i++) o['k' + i] = i; for (var i = 0; i < 40; i += 2) delete o['k' + i]; var s = 0, n = 0; for (var k in o) { s += o[k]; n++; } [n, s, o.k38, o.k39].join(' '); ⇒ return \"20 400  39\"
run ⇒ var o = {}; for (var i = 0; i < 40; i++) o['k' + i] = i; for (var i = 0; i < 40; i++) delete o['k' + i]; for (var k in o) o = k; o.k3 = 3; o.k3; ⇒ return 3
run ⇒ var o = {}; o[''] = 1; o[' '] = 2; o['' + ' '] + o['']; ⇒ return 3
";

/// A text that is held twice is changed for none of its holders.
static TEXTS: &str = "
run ⇒ var s = 'abcdefghijklmnopqrstuvwxyzabcdefghijklmnopqrstuvwxyz', t = s; t += 'x'; s.length + ' ' + t.length + s.charAt(51) + t.charAt(52); ⇒ return \"52 53zx\"
run ⇒ var s = '', o = {}; for (var i = 0; i < 100; i++) { o[i] = s; s += 'ab'; } o[3] + ' ' + o[50].length + ' ' + s.length; ⇒ return \"ababab 100 200\"
run ⇒ var s = ''; for (var i = 0; i < 100; i++) s += 'ab'; var a = s + 'c', b = s + 'd'; a.charAt(200) + b.charAt(200) + (a == b) + a.length; ⇒ return \"cdfalse201\"
run ⇒ var s = ''; for (var i = 0; i < 100; i++) s += 'ab'; var t = ''; for (var i = 0; i < 100; i++) t = t + 'ab'; var o = {}; o[s] = 5; o[t] + ' ' + (s === t); ⇒ return \"5 true\"
run ⇒ var s = ''; for (var i = 0; i < 100; i++) s = 'ab' + s; s.slice(1, 5) + s.indexOf('ba', 7) + s.lastIndexOf('ab'); ⇒ return \"baba7198\"
";

#[test]
fn keys_are_visited_in_the_order_of_their_making(rt: HostRuntime) -> Result<(), Fail> {
    check_gives(rt.alloc(), ARRAYS)?;
    check_gives(rt.alloc(), RECORDS)
}

#[test]
fn an_empty_place_has_no_item(rt: HostRuntime) -> Result<(), Fail> {
    check_gives(rt.alloc(), HOLES)
}

#[test]
fn a_text_stays_for_each_who_holds_it(rt: HostRuntime) -> Result<(), Fail> {
    check_gives(rt.alloc(), TEXTS)
}
