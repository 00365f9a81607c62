//! What a rule is asked, and the rows that say what it answers.

/// What a URL is named for.
#[derive(Debug, Clone, Copy, PartialEq, Eq)]
pub enum UriKind {
    /// A link, which somebody may follow.
    Link,
    /// An image of a document.
    Image,
    /// An image of a sheet.
    Style,
}

/// Whether a URL may be named.
#[derive(Debug, Clone, Copy, PartialEq, Eq)]
pub enum UriVerdict {
    Allow,
    Deny,
}

/// What a rule is asked: what a URL is named for, its scheme in lower case, and its host as it stands in the text of the URL, an IPv6 address with its brackets.
/// User name, password, port, path, query and fragment are not asked of.
#[derive(Debug, Clone, Copy)]
pub struct UriAsk<'a> {
    pub kind: UriKind,
    pub scheme: &'a str,
    pub host: &'a str,
}

/// A row of a table, which allows what it matches: URLs that are named for this, or for anything where no kind is given; with this scheme, in lower case; and
/// with this host, or any where none is given. With `sub` it matches the hosts below that host too: those that end in a point and that host.
#[derive(Debug, Drop)]
pub struct UriRow {
    pub kind: Option<UriKind>,
    pub scheme: String,
    pub host: Option<String>,
    pub sub: bool,
}
