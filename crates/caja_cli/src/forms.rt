// How what a page of cajoled modules shows is written.

/// How what a page of cajoled modules shows is written.
#[derive(Clone, Copy)]
pub enum Form {
    /// The page of a module that is alone: its text and its log.
    Alone,
    /// The page of a manifest: with its groups and its document.
    Framed,
    /// A page that was generated to have so many events: how much it has, and how it ended.
    Summed(u32),
}
