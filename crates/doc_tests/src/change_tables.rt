//! Changes of documents: what each refuses, in which order, and what it does.

use crate::steps::{Case, Step};

/// What is refused.
pub static REFUSALS: [Case; 3] = [
    Case {
        html: "<div id=\"a\"><p>x</p></div><div id=\"b\"><p>y</p></div><p>z</p>",
        roots: &["a", "b"],
        steps: &[
            (Step::Append(0, 8), "NoNode"),
            (Step::Append(8, 0), "NoNode"),
            (Step::Append(8, 8), "NoNode"),
            (Step::Append(0, 3), "OtherRoot"),
            (Step::Append(4, 1), "OtherRoot"),
            (Step::Append(0, 6), "OtherRoot"),
            (Step::Append(6, 0), "OtherRoot"),
            (Step::Append(0, 0), "Cycle"),
            (Step::Append(1, 0), "Cycle"),
            (Step::Append(2, 0), "Cycle"),
            (Step::Append(2, 2), "Cycle"),
            (Step::Append(7, 6), "Cycle"),
            (Step::Append(6, 7), "ok"),
            (
                Step::Print,
                "<div id=\"a\"><p>x</p></div><div id=\"b\"><p>y</p></div><p>z</p>",
            ),
        ],
    },
    Case {
        html: "<div id=\"a\"><p><b>x</b></p></div>",
        roots: &["a"],
        steps: &[
            (Step::Remove(0, 4), "NoNode"),
            (Step::Remove(4, 0), "NoNode"),
            (Step::Remove(0, 2), "NoNode"),
            (Step::Remove(1, 0), "NoNode"),
            (Step::Remove(0, 0), "NoNode"),
            (Step::SetAttr(4, "title", "t"), "NoNode"),
            (Step::SetText(4, "t"), "NoNode"),
            (Step::Print, "<div id=\"a\"><p><b>x</b></p></div>"),
        ],
    },
    Case {
        html: "<p>x</p><p>y</p>",
        roots: &[],
        steps: &[
            (Step::Append(0, 2), "ok"),
            (Step::Append(3, 0), "Cycle"),
            (Step::Remove(0, 2), "ok"),
            (Step::Append(3, 0), "ok"),
            (Step::Print, ""),
            (Step::Parent(0), "3"),
        ],
    },
];

/// Nodes that are moved, within a parent and between parents.
pub static MOVES: [Case; 3] = [
    Case {
        html: "<ul id=\"l\"><li>a</li><li>b</li><li>c</li></ul>",
        roots: &["l"],
        steps: &[
            (Step::Append(0, 1), "ok"),
            (Step::Child(0, 0), "3"),
            (Step::Child(0, 1), "5"),
            (Step::Child(0, 2), "1"),
            (Step::Child(0, 3), "none"),
            (Step::Append(0, 1), "ok"),
            (Step::Child(0, 2), "1"),
            (Step::Append(0, 5), "ok"),
            (
                Step::Print,
                "<ul id=\"l\"><li>b</li><li>a</li><li>c</li></ul>",
            ),
            (Step::Owner(5), "0 5"),
        ],
    },
    Case {
        html: "<div id=\"a\"><p>x</p><p>y</p></div>",
        roots: &["a"],
        steps: &[
            (Step::Append(1, 3), "ok"),
            (Step::Print, "<div id=\"a\"><p>x<p>y</p></p></div>"),
            (Step::Append(3, 2), "ok"),
            (Step::Print, "<div id=\"a\"><p><p>yx</p></p></div>"),
            (Step::Append(2, 1), "Cycle"),
            (Step::Append(0, 3), "ok"),
            (Step::Append(3, 1), "ok"),
            (Step::Print, "<div id=\"a\"><p>yx<p></p></p></div>"),
        ],
    },
    Case {
        html: "x<p>y</p>z",
        roots: &[],
        steps: &[
            (Step::Append(1, 0), "ok"),
            (Step::Print, "<p>yx</p>z"),
            (Step::Append(1, 3), "ok"),
            (Step::Print, "<p>yxz</p>"),
            (Step::Parent(3), "1"),
        ],
    },
];

/// Nodes that are detached, and stay what they are.
pub static REMOVALS: [Case; 1] = [Case {
    html: "<div id=\"a\"><p id=\"b\">x</p><i>y</i></div>",
    roots: &["a"],
    steps: &[
        (Step::Remove(0, 1), "ok"),
        (Step::Parent(1), "none"),
        (Step::Child(0, 0), "3"),
        (Step::Child(1, 0), "2"),
        (Step::Owner(1), "0 1"),
        (Step::Owner(2), "0 2"),
        (Step::With(0, 1), "1"),
        (Step::Id("b"), "1"),
        (Step::Print, "<div id=\"a\"><i>y</i></div>"),
        (Step::Remove(0, 1), "NoNode"),
        (Step::SetText(1, "z"), "ok"),
        (Step::Owner(5), "0 5"),
        (Step::Append(3, 1), "ok"),
        (Step::Print, "<div id=\"a\"><i>y<p id=\"b\">z</p></i></div>"),
        (Step::Append(1, 3), "Cycle"),
        (Step::Remove(0, 3), "ok"),
        (Step::Append(1, 3), "Cycle"),
        (Step::Print, "<div id=\"a\"></div>"),
    ],
}];

/// Attributes: one that is there keeps its place, and a new one goes last.
pub static ATTRIBUTES: [Case; 2] = [
    Case {
        html: "<p class=\"a\" title=\"b\">x</p>",
        roots: &[],
        steps: &[
            (Step::SetAttr(0, "class", "c"), "ok"),
            (Step::SetAttr(0, "lang", "en"), "ok"),
            (Step::AttrOf(0, "lang"), "en"),
            (Step::Print, "<p class=\"c\" title=\"b\" lang=\"en\">x</p>"),
            (Step::SetAttr(0, "title", "\"<&>"), "ok"),
            (
                Step::Print,
                "<p class=\"c\" title=\"&quot;&lt;&amp;&gt;\" lang=\"en\">x</p>",
            ),
            (Step::SetAttr(1, "title", "t"), "ok"),
            (Step::AttrOf(1, "title"), "none"),
            (Step::SetAttr(1, "id", "x"), "ok"),
            (Step::Id("x"), "1"),
            (
                Step::Print,
                "<p class=\"c\" title=\"&quot;&lt;&amp;&gt;\" lang=\"en\">x</p>",
            ),
        ],
    },
    Case {
        html: "<p id=\"a\">x</p><p id=\"b\">y</p>",
        roots: &["a"],
        steps: &[
            (Step::SetAttr(0, "id", "b"), "ok"),
            (Step::Id("b"), "0"),
            (Step::Id("a"), "none"),
            (Step::Owner(0), "0 0"),
        ],
    },
];

/// Texts of elements and of text nodes.
pub static TEXTS: [Case; 2] = [
    Case {
        html: "<div id=\"a\"><p>x</p>y</div>",
        roots: &["a"],
        steps: &[
            (Step::SetText(0, "<z>"), "ok"),
            (Step::Print, "<div id=\"a\">&lt;z&gt;</div>"),
            (Step::Child(0, 0), "4"),
            (Step::Child(0, 1), "none"),
            (Step::Owner(4), "0 4"),
            (Step::Parent(4), "0"),
            (Step::Parent(1), "none"),
            (Step::Parent(3), "none"),
            (Step::Child(1, 0), "2"),
            (Step::Parent(2), "1"),
            (Step::Append(0, 1), "ok"),
            (Step::Print, "<div id=\"a\">&lt;z&gt;<p>x</p></div>"),
            (Step::SetText(2, "w"), "ok"),
            (Step::TextOf(2), "w"),
            (Step::SetText(0, ""), "ok"),
            (Step::Child(0, 0), "5"),
            (Step::TextOf(5), ""),
            (Step::Owner(5), "0 5"),
            (Step::Print, "<div id=\"a\"></div>"),
        ],
    },
    Case {
        html: "<p>x</p>",
        roots: &[],
        steps: &[
            (Step::SetText(0, "y"), "ok"),
            (Step::Owner(2), "none"),
            (Step::Print, "<p>y</p>"),
        ],
    },
];

/// Nodes that are made.
pub static NEW_NODES: [Case; 1] = [Case {
    html: "<div id=\"a\">x</div><div id=\"b\"></div>",
    roots: &["a", "b"],
    steps: &[
        (Step::Element(0, "p"), "3"),
        (Step::Text(1, "t"), "4"),
        (Step::Text(0, "u"), "5"),
        (Step::Owner(3), "0 2"),
        (Step::Owner(4), "1 1"),
        (Step::Owner(5), "0 3"),
        (Step::With(0, 3), "5"),
        (Step::Tag(3), "p"),
        (Step::TextOf(4), "t"),
        (Step::Parent(3), "none"),
        (Step::Child(3, 0), "none"),
        (Step::AttrOf(3, "id"), "none"),
        (Step::Append(0, 4), "OtherRoot"),
        (Step::Append(3, 5), "ok"),
        (Step::Append(0, 3), "ok"),
        (Step::Append(2, 4), "ok"),
        (
            Step::Print,
            "<div id=\"a\">x<p>u</p></div><div id=\"b\">t</div>",
        ),
    ],
}];
