//! The site as it is asked.
use crate::tests::assert_same;
use std::process::Abort;
use survey_rows::{AskedFault, asked_site};

/// An input and an output, and a name that a tag on a common model could have.
const SITE: &str = r#"
[gateway]
unit = 1
models = [1]
[[device]]
name = "a\"b"
unit = 1
[[tag]]
name = "asked_0"
access = "in"
[[tag]]
name = "limit"
access = "out"
default = 5
fit = "down"
"#;

/// The same, in which nothing is written.
const READ: &str = r#"[[device]]
name = 'a"b'
unit = 1

[gateway]
models = [1]
unit = 1

[[tag]]
access = "in"
name = "asked_0"

[[tag]]
access = "in"
default = 5
name = "limit"
"#;

/// The tag on the common model of its device.
const COMMON: &str = r#"
[[tag]]
access = "in"
device = 'a"b'
exponent = 0
high = 65535
low = 0
model = 1
name = "asked_1"
point = "DA"
type = "UINT"
"#;

/// What is asked of a text.
fn asked(rt: &(impl Abort + AllocGlobal), site: &str, identities: bool) -> String {
    match asked_site(rt.alloc(), site, identities) {
        Ok(text) => text,
        Err(AskedFault::NoSite) => String::from_str(rt.alloc(), "no site").expect(rt, "memory"),
        Err(AskedFault::OutOfMemory) => String::new(rt.alloc()),
    }
}

#[test]
fn outputs_are_inputs(rt: HostRuntime) {
    assert_same(&rt, &asked(&rt, SITE, false).as_str(), &READ);
}

#[test]
fn devices_have_a_tag_more(rt: HostRuntime) {
    let text = asked(&rt, SITE, true);
    let more = text.as_str().strip_prefix(READ).unwrap_or("");
    assert_same(&rt, &more, &COMMON);
}

/// Texts that are no site file.
const OTHERS: &[&str] = &["a =", "tag = 1", "device = 1\ntag = []"];

#[test]
fn other_texts_are_no_site(rt: HostRuntime) {
    for text in OTHERS {
        assert_same(&rt, &asked(&rt, text, true).as_str(), &"no site");
    }
    assert_same(
        &rt,
        &asked(&rt, "a = 1", false).as_str(),
        &"a = 1\ntag = []\n",
    );
}
