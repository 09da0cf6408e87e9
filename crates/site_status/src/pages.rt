//! What can be asked.
ghost use Rattle.std.specs.Prelude.{◌≡◌, ◌≢◌, ◌==◌, ◌++◌, ℕ, List, None, IfSome, length, position};
ghost use Rattle.site_status.specs.Pages.{AsksForNone, AsksForNoName, AsksForNoPart, from_question_mark, path_of_page, path_of_target, query_of_target};

/// A page that there is.
#[derive(Clone, Copy, Debug, PartialEq, Eq)]
pub enum Page<'a> {
    /// Whether the site serves.
    Health,
    /// Its figures.
    Metrics,
    /// The page for a browser.
    Overview,
    /// How that looks.
    Style,
    /// What that does.
    Script,
    /// Its figures of the last minutes, as that shows them.
    History,
    /// What it knows of the sessions of a Session-Id.
    Session(&'a [u8]),
    /// Which sessions a subscriber of some name has.
    Subscriber(&'a [u8]),
    /// Which sessions there are at an address.
    Address(&'a [u8]),
    /// What it knows of a host.
    Gateway(&'a [u8]),
}

/// Where the first question mark stands.
fn question_mark(target: &[u8]) -> Option<usize>
    ensures { result ≡ position (λ byte. byte == 63) target.now }
{
    target.iter().position(|byte| *byte == b'?')
}

/// The path of a target: what stands before the first question mark (RFC 9110, 7.1).
#[tactic(auto, unfolding(crate::specs::Pages::path_of_target))]
fn path_of(target: &[u8]) -> &[u8]
    ensures { result.now ≡ path_of_target target.now }
{
    match question_mark(target) {
        Some(end) => target.get(..end).unwrap_or(target),
        None => target,
    }
}

/// What stands from the first question mark on.
fn from_question_mark(target: &[u8]) -> &[u8]
    ensures { result.now ≡ from_question_mark target.now }
{
    match question_mark(target) {
        Some(place) => target.get(place..).unwrap_or(&[]),
        None => &[],
    }
}

/// The query of a target: what stands behind the first question mark (RFC 9110, 4.1), nothing where there is none.
pub fn query_of(target: &[u8]) -> &[u8]
    ensures { result.now ≡ query_of_target target.now }
{
    match from_question_mark(target).split_first() {
        Some((_, query)) => query,
        None => &[],
    }
}

/// What stands behind a beginning, if a path has it.
fn behind<'b>(path: &'b [u8], beginning: &[u8]) -> Option<&'b [u8]>
    ensures found { IfSome result (λ name. path.now ≡ beginning.now ++ name.now) }
    ensures none { result ≡ None → (name : List ℕ) → path.now ≢ beginning.now ++ name }
{
    path.strip_prefix(beginning)
}

/// The page with a name that a path asks for.
fn named_page(path: &[u8]) -> Option<Page<'_>>
    ensures named { IfSome result (λ page. path.now ≡ path_of_page page) }
    ensures none { result ≡ None → AsksForNoName path.now }
{
    if let Some(name) = behind(path, b"/sessions/") {
        return Some(Page::Session(name));
    }
    if let Some(name) = behind(path, b"/subscribers/") {
        return Some(Page::Subscriber(name));
    }
    if let Some(name) = behind(path, b"/addresses/") {
        return Some(Page::Address(name));
    }
    if let Some(name) = behind(path, b"/gateways/") {
        return Some(Page::Gateway(name));
    }
    None
}

/// The page for a browser, or a part of it.
fn part_of_overview(path: &[u8]) -> Option<Page<'_>>
    ensures named { IfSome result (λ page. path.now ≡ path_of_page page) }
    ensures none { result ≡ None → AsksForNoPart path.now }
{
    if path == b"/".as_slice() {
        return Some(Page::Overview);
    }
    if path == b"/style.css".as_slice() {
        return Some(Page::Style);
    }
    if path == b"/script.js".as_slice() {
        return Some(Page::Script);
    }
    if path == b"/history".as_slice() {
        return Some(Page::History);
    }
    None
}

/// The page that a target asks for by its path; none where there is no such page. Names are as they stand there, with their escapes.
pub fn page_of(target: &[u8]) -> Option<Page<'_>>
    ensures named { IfSome result (λ page. path_of_target target.now ≡ path_of_page page) }
    ensures none { result ≡ None → AsksForNone (path_of_target target.now) }
{
    let path = path_of(target);
    if path == b"/healthz".as_slice() {
        return Some(Page::Health);
    }
    if path == b"/metrics".as_slice() {
        return Some(Page::Metrics);
    }
    if let Some(part) = part_of_overview(path) {
        return Some(part);
    }
    named_page(path)
}
