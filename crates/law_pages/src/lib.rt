//! Laws of what a statement reads: the pages of the file, and the locks of sessions.
#![tactic(auto)]

ghost use Rattle.law_pages.specs.Bytes.{ImagesAreOfBytes};
ghost use Rattle.law_pages.specs.Laws.{FileAgreesUnder, HeadersAreShown, HolderIsExact, HolderIsSession, FirstIsAmong};

/// In all that a resource guards which nobody else holds, the file has what a transaction that hasn't ended
/// sees; and in the header of a page that nothing else guards.
pub fn agreement_law()
    ensures bits { FileAgreesUnder }
    ensures headers { HeadersAreShown }
{}

/// What changes of bytes make of a file of bytes is of bytes: the file as it stands, and every view.
pub fn bytes_law()
    ensures { ImagesAreOfBytes }
{}

/// The log names another holder exactly where one holds the resource.
pub fn holder_law()
    ensures { HolderIsExact }
{}

/// A search through whatever lists the unfinished transactions with what they hold, as the sessions do,
/// finds whom the log names; to take the first such is such a search.
pub fn session_laws<A>()
    ensures session { HolderIsSession A }
    ensures first { FirstIsAmong A }
{}
