//! The kinds of fault that `--ignore` of `verify` names.

ghost use Rattle.std.specs.Prelude.{◌≡◌, ◌==◌, option_map};
ghost use Rattle.std.specs.List.{list_all, list_any, slice_split};
ghost use Rattle.std.specs.Str.{bytes_eq};
ghost use Rattle.arbiter_cli.specs.ties.Requests.{is_kind as kind_test, names_in};

// Whether faults of a kind with this name can be ignored.
fn is_kind(name: &str) -> bool
    ensures { result ≡ kind_test name.now }
{
    name == "variant" || (name == "result" || (name == "board" || name == "after-end"))
}

// Whether a list, with commas between its names, has only names of kinds that can be ignored.
fn are_kinds(list: &str) -> bool
    ensures { result ≡ list_all kind_test (slice_split (λ b. b == 44) list.now) }
{
    list.split(',').all(|name| is_kind(name))
}

// Whether a list, with commas between its names, has this name.
fn has_name(list: &str, name: &str) -> bool
    ensures { result ≡ list_any (bytes_eq name.now) (slice_split (λ b. b == 44) list.now) }
{
    list.split(',').any(|part| name == part)
}

// Whether the list that `--ignore` was given has this kind; `list` is `None` without the option.
pub(crate) fn is_ignored(list: Option<&str>, kind: &str) -> bool
    ensures { result ≡ list_any (bytes_eq kind.now) (names_in (option_map (λ t. t.now) list.entry)) }
{
    match list {
        None => false,
        Some(list) => has_name(list, kind),
    }
}

// Whether the list that `--ignore` was given has only names of kinds that can be ignored; `list` is `None` without the
// option, and then true is returned.
pub(crate) fn can_be_ignored(list: Option<&str>) -> bool
    ensures { result ≡ list_all kind_test (names_in (option_map (λ t. t.now) list.entry)) }
{
    match list {
        None => true,
        Some(list) => are_kinds(list),
    }
}
