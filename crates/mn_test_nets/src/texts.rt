//! A topology as text.
use std::alloc::{AllocError, Global};
use std::fmt::Write;

/// The file up to its sites. A link takes two ticks.
const ROW: &str = r#"
as = 65000
[[node]]
name = "pe1"
loopback = "192.0.2.1"
[[node]]
name = "p"
loopback = "192.0.2.2"
[[node]]
name = "pe2"
loopback = "192.0.2.3"
[[link]]
a = "pe1"
b = "p"
delay = 2
[[link]]
a = "p"
b = "pe2"
delay = 2
[[vrf]]
name = "red1"
node = "pe1"
rd = "65000:1"
import = ["65000:100"]
export = ["65000:100"]
[[vrf]]
name = "red2"
node = "pe2"
rd = "65000:2"
import = ["65000:100"]
export = ["65000:100"]
"#;

/// A site: its name, its VRF's, and its prefixes.
pub type SiteText<'a> = (&'a str, &'a str, &'a [&'a str]);

/// The file of the three nodes in a row and their VRFs, over links of delay 2 and cost 10, with these sites.
pub fn row_text(alloc: Global, sites: &[SiteText<'_>]) -> Result<String, AllocError> {
    let mut text = String::from_str(alloc, ROW)?;
    for (name, vrf, prefixes) in sites {
        write!(
            text,
            "[[site]]\nname = {name:?}\nvrf = {vrf:?}\nprefixes = {prefixes:?}\n"
        )?;
    }
    Ok(text)
}
