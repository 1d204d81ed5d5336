//! The page of a run of two scans.
use crate::tests::assert_same;
use run_report::{Measure, Role, RunFile, RunReport, Sample, ScanSeries, Unset, page_of};
use std::alloc::{AllocError, Global};

/// What a line is: its name, its role, its unit, the power of ten that it counts, its range, and what it was in two scans.
type Line = (&'static str, Role, &'static str, i8, i64, i64, [Sample; 2]);

const POWER: Line = (
    "power",
    Role::Input,
    "W",
    -1,
    -50,
    50,
    [Sample::Number(20), Sample::Default(-10, "NotImplemented")],
);

const LIMIT: Line = (
    "limit",
    Role::Output,
    "% <W>",
    0,
    0,
    100,
    [Sample::Missing("NotSet"), Sample::Unwritten(30, "NoBlock")],
);

const ENABLE: Line = (
    "enable",
    Role::Output,
    "",
    0,
    0,
    1,
    [Sample::Number(1), Sample::Number(1)],
);

const TARGET: Line = (
    "target",
    Role::Setting,
    "",
    0,
    0,
    100,
    [Sample::Missing("NotImplemented"), Sample::Number(30)],
);

const SHOWN: Line = (
    "shown",
    Role::Shown,
    "",
    0,
    0,
    9,
    [Sample::Missing("NotSet"), Sample::Missing("NotSet")],
);

const COUNT: Line = (
    "count",
    Role::Variable,
    "",
    0,
    i64::MIN,
    i64::MAX,
    [Sample::Number(i64::MIN), Sample::Number(i64::MAX)],
);

const STEPS: Line = (
    "instructions",
    Role::Steps,
    "",
    0,
    0,
    18,
    [Sample::Number(18), Sample::Number(7)],
);

fn series(alloc: Global, line: Line) -> Result<ScanSeries, AllocError> {
    let (name, role, unit, exponent, low, high, samples) = line;
    let (device, measure) = match role {
        Role::Input => (Some(0), Measure::Power),
        Role::Output => (Some(0), Measure::Limit),
        _ => (None, Measure::Other),
    };
    Ok(ScanSeries {
        name: String::from_str(alloc, name)?,
        role,
        device,
        measure,
        unit: String::from_str(alloc, unit)?,
        exponent,
        low,
        high,
        samples: Vec::from_array(alloc, samples)?,
    })
}

fn source(alloc: Global, path: &str) -> Result<RunFile, AllocError> {
    Ok(RunFile {
        path: String::from_str(alloc, path)?,
        digits: String::from_str(alloc, "0a1b")?,
    })
}

fn page(alloc: Global) -> Result<String, AllocError> {
    let mut lines = Vec::new(alloc);
    for line in [POWER, TARGET, LIMIT, ENABLE, SHOWN, COUNT] {
        lines.push(series(alloc, line)?)?;
    }
    let unset = Unset {
        scan: 2,
        name: String::from_str(alloc, "tar<get")?,
        said: Some(101),
        why: "it is outside the tag's range",
    };
    let report = RunReport {
        site: source(alloc, "a <b>&\"c\".toml")?,
        program: source(alloc, "p.il")?,
        plant: String::from_str(alloc, "plant.toml")?,
        scans: 3,
        every: 1500,
        budget: 18,
        steps: series(alloc, STEPS)?,
        devices: Vec::from_array(alloc, [String::from_str(alloc, "inv<1>")?])?,
        series: lines,
        unset: Vec::from_array(alloc, [unset])?,
    };
    page_of(alloc, &report)
}

/// A page without its style: what stands before that, and after it.
fn plain(page: &str) -> Option<(&str, &str)> {
    let (head, rest) = page.split_once("<style>")?;
    let (_, body) = rest.split_once("</style>\n")?;
    Some((head, body))
}

#[test]
fn a_page_has_a_chart_for_each_line_that_changed(rt: HostRuntime) {
    let page = page(rt.alloc()).expect(&rt, "memory");
    match plain(page.as_str()) {
        Some((head, body)) => {
            assert_same(&rt, &head, &HEAD);
            assert_same(&rt, &body, &BODY);
        }
        None => assert_same(&rt, &page.as_str(), &"a page with a style"),
    }
}

const HEAD: &str = r#"<!DOCTYPE html>
<html lang="en">
<head>
<meta charset="utf-8">
<meta name="viewport" content="width=device-width, initial-scale=1">
<title>p.il on a &lt;b&gt;&amp;&quot;c&quot;.toml</title>
"#;

const BODY: &str = r#"</head>
<body>
<h1>p.il on a &lt;b&gt;&amp;&quot;c&quot;.toml</h1>
<dl>
<dt>Site</dt><dd>a &lt;b&gt;&amp;&quot;c&quot;.toml <small>SHA-256 0a1b..</small></dd>
<dt>Program</dt><dd>p.il <small>SHA-256 0a1b..</small></dd>
<dt>Plant</dt><dd>plant.toml</dd>
<dt>Scans</dt><dd>2 of 3, 1.5 s apart</dd>
<dt>Instructions</dt><dd>18 at most in a scan, of a budget of 18</dd>
</dl>
<ul class="legend">
<li class="own">number</li>
<li class="default">default in its place</li>
<li class="limit">limit of a power, by the numbers at the right</li>
<li class="set">set by a client</li>
<li class="missing">missing</li>
<li class="unset">not set, not stored</li>
<li class="unwritten">not written</li>
</ul>
<h2>Device inv&lt;1&gt;</h2>
<section>
<figure>
<figcaption><b>power</b> read from a device; was -1.0 to 2.0 W; may be -5.0 to 5.0 W<br>
<b>limit</b> written to a device; was 30 % &lt;W&gt;; may be 0 to 100 % &lt;W&gt;</figcaption>
<svg viewBox="0 0 5300 1700" role="img" aria-label="power">
<rect class="plot" x="960" y="40" width="3640" height="1260"/>
<rect class="missing" x="2780" y="40" width="1820" height="1260"><title>scan 2: missing, its default in its place (NotImplemented)</title></rect>
<text class="mid cause" x="3690" y="200">NotImplemented</text>
<path class="tick" d="M910 1240H4600"/><text class="end" x="880" y="1290">-1.0</text>
<path class="zero" d="M910 860H4600"/><text class="end" x="880" y="910">0.0</text>
<path class="tick" d="M910 480H4600"/><text class="end" x="880" y="530">1.0</text>
<path class="tick" d="M910 100H4600"/><text class="end" x="880" y="150">2.0</text>
<text class="mid" transform="translate(160 670) rotate(-90)">W</text>
<rect class="unset" x="960" y="40" width="1820" height="1260"><title>scan 1: not stored (NotSet)</title></rect>
<text class="mid cause" x="1870" y="360">NotSet</text>
<rect class="unwritten" x="2780" y="40" width="1820" height="1260"><title>scan 2: not written (NoBlock)</title></rect>
<text class="mid cause" x="3690" y="360">NoBlock</text>
<path class="tick" d="M4600 1240H4650"/><text class="limit" x="4680" y="1290">0</text>
<path class="tick" d="M4600 860H4650"/><text class="limit" x="4680" y="910">10</text>
<path class="tick" d="M4600 480H4650"/><text class="limit" x="4680" y="530">20</text>
<path class="tick" d="M4600 100H4650"/><text class="limit" x="4680" y="150">30</text>
<text class="mid limit" transform="translate(5250 670) rotate(-90)">% &lt;W&gt;</text>
<text class="end" x="880" y="1490">scan</text>
<path class="tick" d="M1870 1300V1350"/><text class="mid" x="1870" y="1490">1</text>
<path class="tick" d="M3690 1300V1350"/><text class="mid" x="3690" y="1490">2</text>
<text class="mid" x="1870" y="1650">0 s</text>
<text class="mid" x="3690" y="1650">1.5 s</text>
<path class="default" d="M2780 1240H4600"/>
<path class="own" d="M960 100H2780"/>
<path class="own limit" d="M2780 100H4600"/>
</svg>
<ul>
<li class="missing">power, scan 2: missing, its default in its place (NotImplemented)</li>
</ul>
<ul>
<li class="unset">limit, scan 1: not stored (NotSet)</li>
<li class="unwritten">limit, scan 2: not written (NoBlock)</li>
</ul>
</figure>
</section>
<ul>
<li><b>enable</b> is 1 throughout <small>may be 0 to 1</small></li>
</ul>
<h2>What clients set</h2>
<section>
<figure>
<figcaption><b>target</b> set by clients; was 30; may be 0 to 100</figcaption>
<svg viewBox="0 0 4800 1700" role="img" aria-label="target">
<rect class="plot" x="960" y="40" width="3640" height="1260"/>
<rect class="unset" x="960" y="40" width="1820" height="1260"><title>scan 1: not set by a client (NotImplemented)</title></rect>
<text class="mid cause" x="1870" y="200">NotImplemented</text>
<path class="zero" d="M910 1240H4600"/><text class="end" x="880" y="1290">0</text>
<path class="tick" d="M910 860H4600"/><text class="end" x="880" y="910">10</text>
<path class="tick" d="M910 480H4600"/><text class="end" x="880" y="530">20</text>
<path class="tick" d="M910 100H4600"/><text class="end" x="880" y="150">30</text>
<text class="end" x="880" y="1490">scan</text>
<path class="tick" d="M1870 1300V1350"/><text class="mid" x="1870" y="1490">1</text>
<path class="tick" d="M3690 1300V1350"/><text class="mid" x="3690" y="1490">2</text>
<text class="mid" x="1870" y="1650">0 s</text>
<text class="mid" x="3690" y="1650">1.5 s</text>
<path class="own" d="M2780 100H4600"/>
<circle class="set" cx="2780" cy="100" r="45"><title>set to 30 in scan 2</title></circle>
</svg>
<ul>
<li class="set">set to 30 in scan 2</li>
<li class="unset">scan 1: not set by a client (NotImplemented)</li>
</ul>
</figure>
</section>
<h2>What clients read</h2>
<ul>
<li><b>shown</b> never has a number <small>may be 0 to 9</small></li>
</ul>
<h2>Variables of the program</h2>
<section>
<figure>
<figcaption><b>count</b> kept from scan to scan; was -9223372036854775808 to 9223372036854775807; may be -9223372036854775808 to 9223372036854775807</figcaption>
<svg viewBox="0 0 4800 1700" role="img" aria-label="count">
<rect class="plot" x="960" y="40" width="3640" height="1260"/>
<path class="tick" d="M910 1240H4600"/><text class="end" x="880" y="1290" textLength="700" lengthAdjust="spacingAndGlyphs">-10000000000000000000</text>
<path class="tick" d="M910 955H4600"/><text class="end" x="880" y="1005" textLength="700" lengthAdjust="spacingAndGlyphs">-5000000000000000000</text>
<path class="zero" d="M910 670H4600"/><text class="end" x="880" y="720">0</text>
<path class="tick" d="M910 385H4600"/><text class="end" x="880" y="435" textLength="700" lengthAdjust="spacingAndGlyphs">5000000000000000000</text>
<path class="tick" d="M910 100H4600"/><text class="end" x="880" y="150" textLength="700" lengthAdjust="spacingAndGlyphs">10000000000000000000</text>
<text class="end" x="880" y="1490">scan</text>
<path class="tick" d="M1870 1300V1350"/><text class="mid" x="1870" y="1490">1</text>
<path class="tick" d="M3690 1300V1350"/><text class="mid" x="3690" y="1490">2</text>
<text class="mid" x="1870" y="1650">0 s</text>
<text class="mid" x="3690" y="1650">1.5 s</text>
<path class="own" d="M960 1196H2780V145H4600"/>
</svg>
</figure>
</section>
<h2>Instructions of the program</h2>
<section>
<figure>
<figcaption><b>instructions</b> taken in each scan; was 7 to 18; may be 0 to 18</figcaption>
<svg viewBox="0 0 4800 1700" role="img" aria-label="instructions">
<rect class="plot" x="960" y="40" width="3640" height="1260"/>
<path class="tick" d="M910 1240H4600"/><text class="end" x="880" y="1290">5</text>
<path class="tick" d="M910 860H4600"/><text class="end" x="880" y="910">10</text>
<path class="tick" d="M910 480H4600"/><text class="end" x="880" y="530">15</text>
<path class="tick" d="M910 100H4600"/><text class="end" x="880" y="150">20</text>
<text class="end" x="880" y="1490">scan</text>
<path class="tick" d="M1870 1300V1350"/><text class="mid" x="1870" y="1490">1</text>
<path class="tick" d="M3690 1300V1350"/><text class="mid" x="3690" y="1490">2</text>
<text class="mid" x="1870" y="1650">0 s</text>
<text class="mid" x="3690" y="1650">1.5 s</text>
<path class="own" d="M960 252H2780V1088H4600"/>
</svg>
</figure>
</section>
<h2 id="events">What happened</h2>
<table>
<thead><tr><th>Scan</th><th>Time</th><th>Name</th><th>What</th><th>Cause</th></tr></thead>
<tbody>
<tr><td>1</td><td>0 s</td><td>target</td><td class="unset">not set by a client</td><td>NotImplemented</td></tr>
<tr><td>1</td><td>0 s</td><td>limit</td><td class="unset">not stored</td><td>NotSet</td></tr>
<tr><td>1 to 2</td><td>0 s</td><td>shown</td><td class="unset">not stored</td><td>NotSet</td></tr>
<tr><td>2</td><td>1.5 s</td><td>power</td><td class="missing">missing, its default in its place</td><td>NotImplemented</td></tr>
<tr><td>2</td><td>1.5 s</td><td>target</td><td class="set">set to 30</td><td></td></tr>
<tr><td>2</td><td>1.5 s</td><td>limit</td><td class="unwritten">not written</td><td>NoBlock</td></tr>
<tr><td>2</td><td>1.5 s</td><td>tar&lt;get</td><td class="unwritten">not set to 101</td><td>it is outside the tag&#39;s range</td></tr>
</tbody>
</table>
<h2>Acceptance</h2>
<div class="sign"><p>Name</p><p>Date</p><p>Signature</p></div>
</body>
</html>
"#;
