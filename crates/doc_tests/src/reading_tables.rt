//! Documents of HTML, and what is read of them.

use crate::steps::{Case, Step};

/// Rows: tags, texts, attributes, parents and children.
pub static ROWS: [Case; 2] = [
    Case {
        html: "a<p class=\"c\" title=\"t\">b<br>d</p>e",
        roots: &[],
        steps: &[
            (Step::TextOf(0), "a"),
            (Step::Tag(0), "none"),
            (Step::Tag(1), "p"),
            (Step::TextOf(1), "none"),
            (Step::Tag(3), "br"),
            (Step::TextOf(5), "e"),
            (Step::Tag(6), "none"),
            (Step::TextOf(6), "none"),
            (Step::AttrOf(1, "class"), "c"),
            (Step::AttrOf(1, "title"), "t"),
            (Step::AttrOf(1, "Class"), "none"),
            (Step::AttrOf(1, "id"), "none"),
            (Step::AttrOf(0, "class"), "none"),
            (Step::AttrOf(6, "class"), "none"),
            (Step::Parent(0), "none"),
            (Step::Parent(1), "none"),
            (Step::Parent(2), "1"),
            (Step::Parent(4), "1"),
            (Step::Parent(6), "none"),
            (Step::Child(1, 0), "2"),
            (Step::Child(1, 1), "3"),
            (Step::Child(1, 2), "4"),
            (Step::Child(1, 3), "none"),
            (Step::Child(0, 0), "none"),
            (Step::Child(3, 0), "none"),
            (Step::Child(6, 0), "none"),
        ],
    },
    Case {
        html: "<div id=\"a\"><p id=\"b\">x</p></div>",
        roots: &[],
        steps: &[
            (Step::Id("a"), "0"),
            (Step::Id("b"), "1"),
            (Step::Id("c"), "none"),
            (Step::Id(""), "none"),
            (Step::Id("A"), "none"),
            (Step::Owner(0), "none"),
            (Step::With(0, 0), "none"),
        ],
    },
];

/// Owners: the numbers of the nodes of each root.
pub static OWNERS: [Case; 4] = [
    Case {
        html: "<p>z</p><div id=\"a\"><p>x</p>y</div><div id=\"b\"><i>w</i></div>",
        roots: &["b", "a"],
        steps: &[
            (Step::Owner(0), "none"),
            (Step::Owner(1), "none"),
            (Step::Owner(2), "1 0"),
            (Step::Owner(3), "1 1"),
            (Step::Owner(4), "1 2"),
            (Step::Owner(5), "1 3"),
            (Step::Owner(6), "0 0"),
            (Step::Owner(7), "0 1"),
            (Step::Owner(8), "0 2"),
            (Step::Owner(9), "none"),
            (Step::With(1, 0), "2"),
            (Step::With(1, 3), "5"),
            (Step::With(1, 4), "none"),
            (Step::With(0, 0), "6"),
            (Step::With(0, 2), "8"),
            (Step::With(2, 0), "none"),
        ],
    },
    Case {
        html: "<div><div id=\"a\"></div>x</div>",
        roots: &["a", "none"],
        steps: &[
            (Step::Owner(0), "none"),
            (Step::Owner(1), "0 0"),
            (Step::Owner(2), "none"),
            (Step::With(1, 0), "none"),
        ],
    },
    Case {
        html: "<div id=\"a\"><div id=\"c\">x</div></div>",
        roots: &["a"],
        steps: &[
            (Step::Owner(1), "0 1"),
            (Step::Owner(2), "0 2"),
            (Step::Id("c"), "1"),
        ],
    },
    Case {
        html: "",
        roots: &["a"],
        steps: &[
            (Step::Owner(0), "none"),
            (Step::Print, ""),
            (Step::Element(0, "p"), "0"),
            (Step::Owner(0), "0 0"),
            (Step::Print, ""),
        ],
    },
];

/// How documents are written.
pub static SHOWN: [Case; 3] = [
    Case {
        html: "&lt;&amp;&gt;\"<p title=\"&quot;&lt;&amp;&gt;\">a</p>",
        roots: &[],
        steps: &[(
            Step::Print,
            "&lt;&amp;&gt;\"<p title=\"&quot;&lt;&amp;&gt;\">a</p>",
        )],
    },
    Case {
        html: "<p id=\"a\">x<br></p>",
        roots: &["a"],
        steps: &[
            (Step::Text(0, "t"), "3"),
            (Step::Append(2, 3), "ok"),
            (Step::Child(2, 0), "3"),
            (Step::Element(0, "b"), "4"),
            (Step::Append(1, 4), "ok"),
            (Step::Child(1, 0), "4"),
            (Step::Print, "<p id=\"a\">x<br></p>"),
        ],
    },
    Case {
        html: "<b>a</b><i></i>c",
        roots: &[],
        steps: &[(Step::Print, "<b>a</b><i></i>c")],
    },
];

/// Pages of which the document is written as they are.
pub static PAGES: [&str; 8] = [
    "",
    "a",
    "<p>a</p>",
    "<div id=\"a\"><p class=\"x\">b<br>c</p></div><div id=\"b\"></div>",
    "<table><tr><td colspan=\"2\">1</td></tr></table>",
    "<ul id=\"a\"><li>1</li><li>2<ul><li>3</li></ul></li></ul>",
    "<font>x<b>y</b></font><script>z</script>&copy;&eacute;",
    "<div id=\"a\"><div id=\"b\"><input type=\"text\" value=\"&quot;\"></div><hr></div>",
];
