// Names that a build or an upgrade of an index writes under.
ghost use Rattle.std.specs.Prelude.{◌≡◌};
ghost use Rattle.command_words.specs.Names.{belongs_to_index, follows_index, none_or_tmp, own_or_tmp};

// What stands behind the name of an index while it is written.
pub(crate) const TMP: &str = ".tmp";

// What stands behind it, before a number, in the names of a build's parts.
pub(crate) const PART: &str = ".part";

// Whether a name is that of the index, or one that its build may write under.
pub(crate) fn is_of_index(name: &str, index: &str) -> bool
    ensures { result ≡ belongs_to_index name.now index.now }
{
    let (name, index) = (name.as_bytes(), index.as_bytes());
    if !name.starts_with(index) {
        return false;
    }
    is_after_index(&name[index.len()..])
}

// Whether this, behind the name of an index, makes a name that its build may write under.
fn is_after_index(rest: &[u8]) -> bool
    ensures { result ≡ follows_index rest.now }
{
    if rest.is_empty() {
        return true;
    }
    if rest == TMP.as_bytes() {
        return true;
    }
    rest.starts_with(PART.as_bytes())
}

// Whether a name is that of the index, or the one that it is written under.
pub(crate) fn is_own_or_tmp(name: &str, index: &str) -> bool
    ensures { result ≡ own_or_tmp name.now index.now }
{
    let (name, index) = (name.as_bytes(), index.as_bytes());
    if !name.starts_with(index) {
        return false;
    }
    is_none_or_tmp(&name[index.len()..])
}

// Whether this, behind the name of an index, makes its own name or the one that it is written under.
fn is_none_or_tmp(rest: &[u8]) -> bool
    ensures { result ≡ none_or_tmp rest.now }
{
    if rest.is_empty() {
        return true;
    }
    rest == TMP.as_bytes()
}
