//! Sources, and what they are cut into: each token with the bytes where it begins and ends, `!` before it where a line terminator
//! stands between it and the token before it, a name in backquotes and a text as a literal, and last the length of the source; or a
//! refusal and its place.

pub static GAPS_AND_COMMENTS: [(&str, &str); 35] = [
    ("", "0"),
    (" ", "1"),
    ("\t\u{B}\u{C} \u{A0}", "6"),
    ("\n", "1"),
    ("\u{FEFF}", "3"),
    ("\u{FEFF}a", "`a`@3-4 4"),
    ("a\u{FEFF}", "BadChar(1)"),
    (" \u{FEFF}a", "BadChar(1)"),
    ("\u{FEFF}\u{FEFF}a", "BadChar(3)"),
    ("a\nb", "`a`@0-1 !`b`@2-3 3"),
    ("a\rb", "`a`@0-1 !`b`@2-3 3"),
    ("a\r\nb", "`a`@0-1 !`b`@3-4 4"),
    ("a\u{2028}b", "`a`@0-1 !`b`@4-5 5"),
    ("a\u{2029}b", "`a`@0-1 !`b`@4-5 5"),
    ("\na", "!`a`@1-2 2"),
    ("a /* \n */ b", "`a`@0-1 !`b`@10-11 11"),
    ("a /* \r */ b", "`a`@0-1 !`b`@10-11 11"),
    ("a /* \u{2028} */ b", "`a`@0-1 !`b`@12-13 13"),
    ("a // c\nb", "`a`@0-1 !`b`@7-8 8"),
    ("a // c\rb", "`a`@0-1 !`b`@7-8 8"),
    ("a // c\u{2029}b", "`a`@0-1 !`b`@9-10 10"),
    ("a // c", "`a`@0-1 6"),
    ("a /* c */ b", "`a`@0-1 `b`@10-11 11"),
    ("/* c */ a", "`a`@8-9 9"),
    ("/* \n */ a", "!`a`@8-9 9"),
    ("a\n// c\n\nb c", "`a`@0-1 !`b`@8-9 `c`@10-11 11"),
    ("/* open", "OpenComment(0)"),
    ("a /* b", "OpenComment(2)"),
    ("a /*/", "OpenComment(2)"),
    ("/**/a", "`a`@4-5 5"),
    ("/***/a", "`a`@5-6 6"),
    ("/* a */ */", "RegExp(9)"),
    ("a /* * / */ b", "`a`@0-1 `b`@12-13 13"),
    ("/*\n", "OpenComment(0)"),
    ("a//*\nb", "`a`@0-1 !`b`@5-6 6"),
];

pub static TOKENS: &str = "
break case catch continue default delete do else finally for function if ⇒ Break@0-5 Case@6-10 Catch@11-16 Continue@17-25 Default@26-33 Delete@34-40 Do@41-43 Else@44-48 Finally@49-56 For@57-60 Function@61-69 If@70-72 72
in instanceof new return switch this throw try typeof var void while ⇒ In@0-2 InstanceOf@3-13 New@14-17 Return@18-24 Switch@25-31 This@32-36 Throw@37-42 Try@43-46 TypeOf@47-53 Var@54-57 Void@58-62 While@63-68 68
with abstract boolean byte char class const debugger double enum export extends ⇒ With@0-4 Abstract@5-13 Boolean@14-21 Byte@22-26 Char@27-31 Class@32-37 Const@38-43 Debugger@44-52 Double@53-59 Enum@60-64 Export@65-71 Extends@72-79 79
final float goto implements import int interface long native package private protected ⇒ Final@0-5 Float@6-11 Goto@12-16 Implements@17-27 Import@28-34 Int@35-38 Interface@39-48 Long@49-53 Native@54-60 Package@61-68 Private@69-76 Protected@77-86 86
public short static super synchronized throws transient volatile null true false ⇒ Public@0-6 Short@7-12 Static@13-19 Super@20-25 Synchronized@26-38 Throws@39-45 Transient@46-55 Volatile@56-64 Null@65-69 True@70-74 False@75-80 80
breaks ⇒ `breaks`@0-6 6
Break ⇒ `Break`@0-5 5
_if ⇒ `_if`@0-3 3
in$ ⇒ `in$`@0-3 3
inn ⇒ `inn`@0-3 3
i ⇒ `i`@0-1 1
var1 ⇒ `var1`@0-4 4
nullx ⇒ `nullx`@0-5 5
instanceo ⇒ `instanceo`@0-9 9
3 in x ⇒ 3@0-1 In@2-4 `x`@5-6 6
in/**/in ⇒ In@0-2 In@6-8 8
foo ⇒ `foo`@0-3 3
$ ⇒ `$`@0-1 1
_ ⇒ `_`@0-1 1
$1_a ⇒ `$1_a`@0-4 4
aZ09 ⇒ `aZ09`@0-4 4
x1 x2 ⇒ `x1`@0-2 `x2`@3-5 5
{ } ( ) [ ] . ; , < > <= >= == != === !== + - * % ++ -- << >> >>> & | ^ ! ~ && || ? : = += -= *= %= <<= >>= >>>= &= |= ^= ⇒ OpenBrace@0-1 CloseBrace@2-3 OpenParen@4-5 CloseParen@6-7 OpenBracket@8-9 CloseBracket@10-11 Point@12-13 Semicolon@14-15 Comma@16-17 Less@18-19 Greater@20-21 LessEq@22-24 GreaterEq@25-27 Equal@28-30 NotEqual@31-33 Same@34-37 NotSame@38-41 Plus@42-43 Minus@44-45 Star@46-47 Percent@48-49 Increment@50-52 Decrement@53-55 Shl@56-58 Shr@59-61 Ushr@62-65 BitAnd@66-67 BitOr@68-69 BitXor@70-71 Not@72-73 BitNot@74-75 And@76-78 Or@79-81 Question@82-83 Colon@84-85 Assign@86-87 PlusAssign@88-90 MinusAssign@91-93 StarAssign@94-96 PercentAssign@97-99 ShlAssign@100-103 ShrAssign@104-107 UshrAssign@108-112 BitAndAssign@113-115 BitOrAssign@116-118 BitXorAssign@119-121 121
<< <<= <== <=== <<< <= <<<= ⇒ Shl@0-2 ShlAssign@3-6 LessEq@7-9 Assign@9-10 LessEq@11-13 Equal@13-15 Shl@16-18 Less@18-19 LessEq@20-22 Shl@23-25 LessEq@25-27 27
>> >>= >== >=== >>> >>>> >= >>>= >>>>= ⇒ Shr@0-2 ShrAssign@3-6 GreaterEq@7-9 Assign@9-10 GreaterEq@11-13 Equal@13-15 Ushr@16-19 Ushr@20-23 Greater@23-24 GreaterEq@25-27 UshrAssign@28-32 Ushr@33-36 GreaterEq@36-38 38
==== ===== === ⇒ Same@0-3 Assign@3-4 Same@5-8 Equal@8-10 Same@11-14 14
!=== !==== !== ⇒ NotSame@0-3 Assign@3-4 NotSame@5-8 Equal@8-10 NotSame@11-14 14
+== +=== ++ +++ += ++= ⇒ PlusAssign@0-2 Assign@2-3 PlusAssign@4-6 Equal@6-8 Increment@9-11 Increment@12-14 Plus@14-15 PlusAssign@16-18 Increment@19-21 Assign@21-22 22
-== -=== -- --- -= --= ⇒ MinusAssign@0-2 Assign@2-3 MinusAssign@4-6 Equal@6-8 Decrement@9-11 Decrement@12-14 Minus@14-15 MinusAssign@16-18 Decrement@19-21 Assign@21-22 22
*== *=== *= ⇒ StarAssign@0-2 Assign@2-3 StarAssign@4-6 Equal@6-8 StarAssign@9-11 11
%== %=== %= ⇒ PercentAssign@0-2 Assign@2-3 PercentAssign@4-6 Equal@6-8 PercentAssign@9-11 11
<<== <<=== <<= ⇒ ShlAssign@0-3 Assign@3-4 ShlAssign@5-8 Equal@8-10 ShlAssign@11-14 14
>>> >>>= >>== >>=== >>>> >>>>> >>= >>>>= >>>>>= ⇒ Ushr@0-3 UshrAssign@4-8 ShrAssign@9-12 Assign@12-13 ShrAssign@14-17 Equal@17-19 Ushr@20-23 Greater@23-24 Ushr@25-28 Shr@28-30 ShrAssign@31-34 Ushr@35-38 GreaterEq@38-40 Ushr@41-44 ShrAssign@44-47 47
>>>== >>>=== >>>= ⇒ UshrAssign@0-4 Assign@4-5 UshrAssign@6-10 Equal@10-12 UshrAssign@13-17 17
&== &=== && &&& &= &&= ⇒ BitAndAssign@0-2 Assign@2-3 BitAndAssign@4-6 Equal@6-8 And@9-11 And@12-14 BitAnd@14-15 BitAndAssign@16-18 And@19-21 Assign@21-22 22
|== |=== || ||| |= ||= ⇒ BitOrAssign@0-2 Assign@2-3 BitOrAssign@4-6 Equal@6-8 Or@9-11 Or@12-14 BitOr@14-15 BitOrAssign@16-18 Or@19-21 Assign@21-22 22
^== ^=== ^= ⇒ BitXorAssign@0-2 Assign@2-3 BitXorAssign@4-6 Equal@6-8 BitXorAssign@9-11 11
!== !=== != ⇒ NotSame@0-3 NotSame@4-7 Assign@7-8 NotEqual@9-11 11
=== ==== == ⇒ Same@0-3 Same@4-7 Assign@7-8 Equal@9-11 11
< < < <= < == ⇒ Less@0-1 Less@2-3 Less@4-5 LessEq@6-8 Less@9-10 Equal@11-13 13
> > > >= > == ⇒ Greater@0-1 Greater@2-3 Greater@4-5 GreaterEq@6-8 Greater@9-10 Equal@11-13 13
== == == === == = ⇒ Equal@0-2 Equal@3-5 Equal@6-8 Same@9-12 Equal@13-15 Assign@16-17 17
!= == != === != = ⇒ NotEqual@0-2 Equal@3-5 NotEqual@6-8 Same@9-12 NotEqual@13-15 Assign@16-17 17
+ == + === + + ⇒ Plus@0-1 Equal@2-4 Plus@5-6 Same@7-10 Plus@11-12 Plus@13-14 14
- == - === - - ⇒ Minus@0-1 Equal@2-4 Minus@5-6 Same@7-10 Minus@11-12 Minus@13-14 14
* == * === * = ⇒ Star@0-1 Equal@2-4 Star@5-6 Same@7-10 Star@11-12 Assign@13-14 14
% == % === % = ⇒ Percent@0-1 Equal@2-4 Percent@5-6 Same@7-10 Percent@11-12 Assign@13-14 14
<< == << === << = ⇒ Shl@0-2 Equal@3-5 Shl@6-8 Same@9-12 Shl@13-15 Assign@16-17 17
>> > >> >= >> == ⇒ Shr@0-2 Greater@3-4 Shr@5-7 GreaterEq@8-10 Shr@11-13 Equal@14-16 16
>>> == >>> === >>> = ⇒ Ushr@0-3 Equal@4-6 Ushr@7-10 Same@11-14 Ushr@15-18 Assign@19-20 20
& == & === & & ⇒ BitAnd@0-1 Equal@2-4 BitAnd@5-6 Same@7-10 BitAnd@11-12 BitAnd@13-14 14
| == | === | | ⇒ BitOr@0-1 Equal@2-4 BitOr@5-6 Same@7-10 BitOr@11-12 BitOr@13-14 14
^ == ^ === ^ = ⇒ BitXor@0-1 Equal@2-4 BitXor@5-6 Same@7-10 BitXor@11-12 Assign@13-14 14
! == ! === ! = ⇒ Not@0-1 Equal@2-4 Not@5-6 Same@7-10 Not@11-12 Assign@13-14 14
= == = === = = ⇒ Assign@0-1 Equal@2-4 Assign@5-6 Same@7-10 Assign@11-12 Assign@13-14 14
a+++b ⇒ `a`@0-1 Increment@1-3 Plus@3-4 `b`@4-5 5
a---b ⇒ `a`@0-1 Decrement@1-3 Minus@3-4 `b`@4-5 5
a+ ++b ⇒ `a`@0-1 Plus@1-2 Increment@3-5 `b`@5-6 6
a<!--b ⇒ `a`@0-1 Less@1-2 Not@2-3 Decrement@3-5 `b`@5-6 6
a-->b ⇒ `a`@0-1 Decrement@1-3 Greater@3-4 `b`@4-5 5
>>>=>>>>== ⇒ UshrAssign@0-4 Ushr@4-7 GreaterEq@7-9 Assign@9-10 10
!==== ⇒ NotSame@0-3 Equal@3-5 5
{}()[];,?:~ ⇒ OpenBrace@0-1 CloseBrace@1-2 OpenParen@2-3 CloseParen@3-4 OpenBracket@4-5 CloseBracket@5-6 Semicolon@6-7 Comma@7-8 Question@8-9 Colon@9-10 BitNot@10-11 11
. ⇒ Point@0-1 1
a.b ⇒ `a`@0-1 Point@1-2 `b`@2-3 3
a..b ⇒ `a`@0-1 Point@1-2 Point@2-3 `b`@3-4 4
... ⇒ Point@0-1 Point@1-2 Point@2-3 3
a/b ⇒ `a`@0-1 Slash@1-2 `b`@2-3 3
a/=b ⇒ `a`@0-1 SlashAssign@1-3 `b`@3-4 4
a /b//c ⇒ `a`@0-1 Slash@2-3 `b`@3-4 7
a/ =b ⇒ `a`@0-1 Slash@1-2 Assign@3-4 `b`@4-5 5
1/2 ⇒ 1@0-1 Slash@1-2 2@2-3 3
''/2 ⇒ \"\"@0-2 Slash@2-3 2@3-4 4
)/ ⇒ CloseParen@0-1 Slash@1-2 2
]/ ⇒ CloseBracket@0-1 Slash@1-2 2
}/ ⇒ CloseBrace@0-1 Slash@1-2 2
a++/ ⇒ `a`@0-1 Increment@1-3 Slash@3-4 4
a--/ ⇒ `a`@0-1 Decrement@1-3 Slash@3-4 4
this/ ⇒ This@0-4 Slash@4-5 5
null/ ⇒ Null@0-4 Slash@4-5 5
true/ ⇒ True@0-4 Slash@4-5 5
false/ ⇒ False@0-5 Slash@5-6 6
) /b/ 1 ⇒ CloseParen@0-1 Slash@2-3 `b`@3-4 Slash@4-5 1@6-7 7
a / b / c ⇒ `a`@0-1 Slash@2-3 `b`@4-5 Slash@6-7 `c`@8-9 9
";

pub static VALUES: &str = "
0 ⇒ 0@0-1 1
1 ⇒ 1@0-1 1
7 ⇒ 7@0-1 1
10 ⇒ 10@0-2 2
1234567890 ⇒ 1234567890@0-10 10
9007199254740991 ⇒ 9007199254740991@0-16 16
0x0 ⇒ 0@0-3 3
0xA ⇒ 10@0-3 3
0Xa ⇒ 10@0-3 3
0xabcdef ⇒ 11259375@0-8 8
0XABCDEF ⇒ 11259375@0-8 8
0x1FFFFFFFFFFFFF ⇒ 9007199254740991@0-16 16
0x0000000000000000000f ⇒ 15@0-22 22
1 .x ⇒ 1@0-1 Point@2-3 `x`@3-4 4
0 .x ⇒ 0@0-1 Point@2-3 `x`@3-4 4
1; ⇒ 1@0-1 Semicolon@1-2 2
0) ⇒ 0@0-1 CloseParen@1-2 2
1/**/2 ⇒ 1@0-1 2@5-6 6
1 2 ⇒ 1@0-1 2@2-3 3
'' ⇒ \"\"@0-2 2
\"\" ⇒ \"\"@0-2 2
'a' ⇒ \"a\"@0-3 3
\"a\" ⇒ \"a\"@0-3 3
'\"' ⇒ \"\\\"\"@0-3 3
\"'\" ⇒ \"'\"@0-3 3
'a b' ⇒ \"a b\"@0-5 5
'/*' ⇒ \"/*\"@0-4 4
'//' ⇒ \"//\"@0-4 4
'\t' ⇒ \"\\t\"@0-3 3
'\u{A0}' ⇒ \"\\xA0\"@0-4 4
'\u{FEFF}' ⇒ \"\\uFEFF\"@0-5 5
'\u{E9}' ⇒ \"\\xE9\"@0-4 4
'\u{4E2D}' ⇒ \"\\u4E2D\"@0-5 5
'\u{1F600}' ⇒ \"\\uD83D\\uDE00\"@0-6 6
'\\\u{1F600}' ⇒ \"\\uD83D\\uDE00\"@0-7 7
'\\\u{E9}' ⇒ \"\\xE9\"@0-5 5
a'b'c ⇒ `a`@0-1 \"b\"@1-4 `c`@4-5 5
'\\b' ⇒ \"\\b\"@0-4 4
'\\t' ⇒ \"\\t\"@0-4 4
'\\n' ⇒ \"\\n\"@0-4 4
'\\v' ⇒ \"\\v\"@0-4 4
'\\f' ⇒ \"\\f\"@0-4 4
'\\r' ⇒ \"\\r\"@0-4 4
'\\\"' ⇒ \"\\\"\"@0-4 4
'\\'' ⇒ \"'\"@0-4 4
'\\\\' ⇒ \"\\\\\"@0-4 4
'\\0' ⇒ \"\\x00\"@0-4 4
'\\x41' ⇒ \"A\"@0-6 6
'\\xfF' ⇒ \"\\xFF\"@0-6 6
'\\u0041' ⇒ \"A\"@0-8 8
'\\uD83D' ⇒ \"\\uD83D\"@0-8 8
'\\uABCD' ⇒ \"\\uABCD\"@0-8 8
'\\uabcd' ⇒ \"\\uABCD\"@0-8 8
'\\a' ⇒ \"a\"@0-4 4
'\\B' ⇒ \"B\"@0-4 4
'\\/' ⇒ \"/\"@0-4 4
'\\ ' ⇒ \" \"@0-4 4
'\\0a' ⇒ \"\\x00a\"@0-5 5
'\\0\\0' ⇒ \"\\x00\\x00\"@0-6 6
'\\X41' ⇒ \"X41\"@0-6 6
'\\U0041' ⇒ \"U0041\"@0-8 8
'\\x411' ⇒ \"A1\"@0-7 7
'\\u00411' ⇒ \"A1\"@0-9 9
";

pub static REFUSED: &str = "
a = /b/ ⇒ RegExp(4)
/ ⇒ RegExp(0)
/= ⇒ RegExp(0)
/b/ ⇒ RegExp(0)
=/ ⇒ RegExp(1)
(/ ⇒ RegExp(1)
[/ ⇒ RegExp(1)
{/ ⇒ RegExp(1)
;/ ⇒ RegExp(1)
,/ ⇒ RegExp(1)
?/ ⇒ RegExp(1)
:/ ⇒ RegExp(1)
!/ ⇒ RegExp(1)
~/ ⇒ RegExp(1)
+/ ⇒ RegExp(1)
a=/=b ⇒ RegExp(2)
return /a ⇒ RegExp(7)
class /a ⇒ RegExp(6)
in/a ⇒ RegExp(2)
typeof /a ⇒ RegExp(7)
case /a ⇒ RegExp(5)
else /a ⇒ RegExp(5)
a</b ⇒ RegExp(2)
010 ⇒ NumberForm(0)
00 ⇒ NumberForm(0)
08 ⇒ NumberForm(0)
09 ⇒ NumberForm(0)
01 ⇒ NumberForm(0)
0x ⇒ NumberForm(0)
0X ⇒ NumberForm(0)
0xg ⇒ NumberForm(0)
0x1g ⇒ NumberForm(0)
0X1g ⇒ NumberForm(0)
0x1. ⇒ NumberForm(0)
1. ⇒ NumberForm(0)
1.5 ⇒ NumberForm(0)
1..x ⇒ NumberForm(0)
.5 ⇒ NumberForm(0)
a.5 ⇒ NumberForm(1)
a .5 ⇒ NumberForm(2)
1a ⇒ NumberForm(0)
1_ ⇒ NumberForm(0)
1$ ⇒ NumberForm(0)
3in ⇒ NumberForm(0)
0a ⇒ NumberForm(0)
0_ ⇒ NumberForm(0)
0$ ⇒ NumberForm(0)
0. ⇒ NumberForm(0)
99999999999999999999999999a ⇒ NumberForm(0)
0x20000000000000g ⇒ NumberForm(0)
1.e5 ⇒ NumberForm(0)
1e5 ⇒ NumberForm(0)
9007199254740992 ⇒ NumberTooLarge(0)
9007199254740993 ⇒ NumberTooLarge(0)
99999999999999999999999999 ⇒ NumberTooLarge(0)
0x20000000000000 ⇒ NumberTooLarge(0)
0x100000000000000000000 ⇒ NumberTooLarge(0)
1 9007199254740992 ⇒ NumberTooLarge(2)
\"a ⇒ OpenString(0)
'a ⇒ OpenString(0)
' ⇒ OpenString(0)
\" ⇒ OpenString(0)
'a\r' ⇒ OpenString(0)
'a\u{2028}' ⇒ OpenString(0)
'a\u{2029}' ⇒ OpenString(0)
'a\" ⇒ OpenString(0)
'\\ ⇒ OpenString(0)
'a\\ ⇒ OpenString(0)
x 'a ⇒ OpenString(2)
'\\' ⇒ OpenString(0)
'\\1' ⇒ BadEscape(0)
'\\8' ⇒ BadEscape(0)
'\\9' ⇒ BadEscape(0)
'\\00' ⇒ BadEscape(0)
'\\09' ⇒ BadEscape(0)
'\\x' ⇒ BadEscape(0)
'\\x4' ⇒ BadEscape(0)
'\\xg1' ⇒ BadEscape(0)
'\\x4g' ⇒ BadEscape(0)
'\\u' ⇒ BadEscape(0)
'\\u123' ⇒ BadEscape(0)
'\\u123g' ⇒ BadEscape(0)
'\\ug123' ⇒ BadEscape(0)
'\\\u{2028}' ⇒ BadEscape(0)
\"\\x4 ⇒ BadEscape(0)
'\\u12 ⇒ BadEscape(0)
a '\\1' ⇒ BadEscape(2)
'\\1 ⇒ BadEscape(0)
/* open ⇒ OpenComment(0)
a /* b ⇒ OpenComment(2)
a /*/ ⇒ OpenComment(2)
a/*b* ⇒ OpenComment(1)
/** ⇒ OpenComment(0)
1/* ⇒ OpenComment(1)
= /* ⇒ OpenComment(2)
foo\\u005f_; ⇒ EscapeInName(3)
\\u0041 ⇒ EscapeInName(0)
a\\ ⇒ EscapeInName(1)
\\ ⇒ EscapeInName(0)
3\\u0041 ⇒ EscapeInName(1)
= \\ ⇒ EscapeInName(2)
# ⇒ BadChar(0)
@ ⇒ BadChar(0)
` ⇒ BadChar(0)
a # b ⇒ BadChar(2)
\u{E9} ⇒ BadChar(0)
a\u{E9} ⇒ BadChar(1)
3\u{E9} ⇒ BadChar(1)
a\u{301}b ⇒ BadChar(1)
\u{200C} ⇒ BadChar(0)
\u{0} ⇒ BadChar(0)
\u{7F} ⇒ BadChar(0)
\u{85} ⇒ BadChar(0)
\u{1680} ⇒ BadChar(0)
\u{180E} ⇒ BadChar(0)
\u{2003} ⇒ BadChar(0)
\u{3000} ⇒ BadChar(0)
a\u{FEFF} ⇒ BadChar(1)
 \u{FEFF}a ⇒ BadChar(1)
\u{FEFF}\u{FEFF}a ⇒ BadChar(3)
\u{1F600} ⇒ BadChar(0)
\u{FEFF}# ⇒ BadChar(3)
\u{E9} # ⇒ BadChar(0)
# 'a ⇒ BadChar(0)
'a #  ⇒ OpenString(0)
010 # ⇒ NumberForm(0)
# 010 ⇒ BadChar(0)
";

/// Rows of these three whose sources have line feeds.
pub static LINE_FEEDS: [(&str, &str); 6] = [
    ("a\n/b/1", "`a`@0-1 !Slash@2-3 `b`@3-4 Slash@4-5 1@5-6 6"),
    ("'a\n'", "OpenString(0)"),
    ("'\\\n'", "BadEscape(0)"),
    ("'\\\r\n'", "BadEscape(0)"),
    ("'\\x4\n'", "BadEscape(0)"),
    ("a\n\\", "EscapeInName(2)"),
];

pub static BROKEN: [(&[u8], &str); 13] = [
    (b"\xE2\x82A", "NotUtf8(0)"),
    (b"a\xE2\x82", "NotUtf8(1)"),
    (b"a\xC3", "NotUtf8(1)"),
    (b"\xF0\x9F\x98", "NotUtf8(0)"),
    (b"\x80", "NotUtf8(0)"),
    (b"a\xFFb", "NotUtf8(1)"),
    (b"/*\xED\xA0\x80*/", "NotUtf8(2)"),
    (b"'\xC0\xAF'", "NotUtf8(1)"),
    (b"\xF4\x90\x80\x80", "NotUtf8(0)"),
    (b"\xEF\xBB", "NotUtf8(0)"),
    (b"\xEF\xBB\xBF\xFF", "NotUtf8(3)"),
    (b"# \xFF", "NotUtf8(2)"),
    (b"\xC1\x80 'a", "NotUtf8(0)"),
];
