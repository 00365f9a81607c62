//! Deeds on nodes, what each tells, and the line of its change.

/// What is asked. Nodes are named by their numbers.
#[derive(Debug, Clone, Copy)]
pub enum Ask {
    TagName,
    ParentNode,
    ChildNodes,
    ElementById(&'static str),
    Attribute(&'static str),
    SetAttribute(&'static str, &'static str),
    Text,
    SetText(&'static str),
    CreateElement(&'static str),
    CreateTextNode(&'static str),
    AppendChild(u32),
    RemoveChild(u32),
}

/// A text of HTML, the ids of the granted roots, and nodes with what is asked of them and what is told.
pub struct Deeds {
    pub html: &'static str,
    pub roots: &'static [&'static str],
    pub deeds: &'static [(u32, Ask, &'static str)],
}

/// Deeds that change nothing.
pub static READ: [Deeds; 2] = [
    Deeds {
        html: "z<div id=\"a\" class=\"c\">x<p id=\"b\">y<br>w</p></div>",
        roots: &["a"],
        deeds: &[
            (1, Ask::TagName, "text div"),
            (2, Ask::TagName, "text #text"),
            (5, Ask::TagName, "text br"),
            (1, Ask::ParentNode, "null"),
            (3, Ask::ParentNode, "node 1"),
            (5, Ask::ParentNode, "node 3"),
            (0, Ask::ParentNode, "null"),
            (1, Ask::ChildNodes, "nodes 2 3"),
            (3, Ask::ChildNodes, "nodes 4 5 6"),
            (2, Ask::ChildNodes, "nodes"),
            (1, Ask::ElementById("a"), "node 1"),
            (1, Ask::ElementById("b"), "node 3"),
            (3, Ask::ElementById("a"), "null"),
            (4, Ask::ElementById("b"), "null"),
            (1, Ask::ElementById(""), "null"),
            (1, Ask::Attribute("class"), "text c"),
            (1, Ask::Attribute("title"), "null"),
            (2, Ask::Attribute("class"), "null"),
            (1, Ask::Text, "text xyw"),
            (3, Ask::Text, "text yw"),
            (5, Ask::Text, "text "),
            (6, Ask::Text, "text w"),
        ],
    },
    Deeds {
        html: "<div><p id=\"a\"><i>x</i></p></div>",
        roots: &["a"],
        deeds: &[
            (1, Ask::ParentNode, "null"),
            (2, Ask::ParentNode, "node 1"),
            (1, Ask::ChildNodes, "nodes 2"),
        ],
    },
];

/// Deeds that change the document, or are refused.
pub static CHANGED: [Deeds; 5] = [
    Deeds {
        html: "<div id=\"a\"><p>x</p><br></div><div id=\"b\"></div>",
        roots: &["a", "b"],
        deeds: &[
            (0, Ask::AppendChild(4), "error other root"),
            (4, Ask::AppendChild(1), "error other root"),
            (1, Ask::AppendChild(0), "error not allowed"),
            (0, Ask::AppendChild(0), "error not allowed"),
            (2, Ask::AppendChild(3), "error not allowed"),
            (3, Ask::AppendChild(1), "error not allowed"),
            (1, Ask::AppendChild(1), "error cycle"),
            (0, Ask::AppendChild(1), "argument | append 0 0 1"),
            (0, Ask::ChildNodes, "nodes 3 1"),
            (1, Ask::AppendChild(3), "argument | append 0 1 3"),
            (0, Ask::RemoveChild(3), "error bad argument"),
            (1, Ask::RemoveChild(3), "argument | remove 0 1 3"),
            (3, Ask::ParentNode, "null"),
            (1, Ask::RemoveChild(3), "error bad argument"),
            (1, Ask::RemoveChild(0), "error bad argument"),
        ],
    },
    Deeds {
        html: "<p id=\"a\">x</p>",
        roots: &["a"],
        deeds: &[
            (
                0,
                Ask::SetAttribute("title", "t"),
                "undefined | set 0 0 title t",
            ),
            (0, Ask::SetAttribute("id", "b"), "error not allowed"),
            (0, Ask::SetAttribute("ID", "b"), "error not allowed"),
            (0, Ask::SetAttribute("onclick", "f()"), "error not allowed"),
            (0, Ask::SetAttribute("style", "x"), "error not allowed"),
            (0, Ask::SetAttribute("href", "#"), "error not allowed"),
            (0, Ask::SetAttribute("class", "1"), "error not allowed"),
            (
                0,
                Ask::SetAttribute("class", "a b"),
                "undefined | set 0 0 class a b",
            ),
            (1, Ask::SetAttribute("title", "t"), "error not allowed"),
            (0, Ask::Attribute("class"), "text a b"),
            (0, Ask::ElementById("a"), "node 0"),
        ],
    },
    Deeds {
        html: "<div id=\"a\"><p>x</p><br></div>",
        roots: &["a"],
        deeds: &[
            (3, Ask::SetText("y"), "error not allowed"),
            (2, Ask::SetText("y"), "undefined | text 0 2 y"),
            (0, Ask::Text, "text y"),
            (0, Ask::SetText("z"), "undefined | text 0 0 z"),
            (0, Ask::ChildNodes, "nodes 4"),
            (1, Ask::ParentNode, "null"),
            (1, Ask::Text, "text y"),
            (0, Ask::AppendChild(1), "argument | append 0 0 1"),
            (0, Ask::Text, "text zy"),
        ],
    },
    Deeds {
        html: "<div id=\"a\"><p>x</p></div>",
        roots: &["a"],
        deeds: &[
            (2, Ask::CreateElement("b"), "node 3"),
            (0, Ask::CreateElement("script"), "error not allowed"),
            (0, Ask::CreateElement("B"), "error not allowed"),
            (0, Ask::CreateElement("font"), "error not allowed"),
            (0, Ask::CreateTextNode("<t>"), "node 4"),
            (3, Ask::ParentNode, "null"),
            (3, Ask::AppendChild(4), "argument | append 0 3 4"),
            (1, Ask::AppendChild(3), "argument | append 0 1 3"),
            (3, Ask::AppendChild(1), "error cycle"),
            (0, Ask::Text, "text x<t>"),
            (3, Ask::ParentNode, "node 1"),
        ],
    },
    Deeds {
        html: "<p>x</p>",
        roots: &[],
        deeds: &[
            (0, Ask::CreateElement("b"), "error not allowed"),
            (0, Ask::CreateTextNode("t"), "error not allowed"),
            (0, Ask::SetAttribute("title", "t"), "undefined"),
            (0, Ask::RemoveChild(1), "argument"),
        ],
    },
];
