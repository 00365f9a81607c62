//! The methods of nodes by their names.

ghost use Rattle.std.specs.Prelude.{◌≡◌};
ghost use Rattle.tamed_dom.specs.Methods.{is_on};

/// A method of nodes.
#[derive(Clone, Copy, Debug)]
pub enum NodeMethod {
    GetTagName,
    GetParentNode,
    GetChildNodes,
    GetElementById,
    GetAttribute,
    SetAttribute,
    GetText,
    SetText,
    CreateElement,
    CreateTextNode,
    AppendChild,
    RemoveChild,
    On,
}

impl NodeMethod {
    /// Whether it is `on`, which asks nothing of the document.
    pub fn is_on(self) -> bool
        ensures { result ≡ is_on self }
    {
        matches!(self, NodeMethod::On)
    }
}
