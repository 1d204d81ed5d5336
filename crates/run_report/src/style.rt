//! How a page looks.

/// Its style.
pub(crate) const STYLE: &str =
    ":root { color-scheme: light; --line: #1d5c9e; --limit: #9a4b00; --missing: #f6c667; --unset: #c9ced4; --unwritten: #e58a8a; --set: #23763f; --faint: #5b6670; --edge: #c3cbd3; }
* { box-sizing: border-box; }
body { margin: 0 auto; padding: 1rem; max-width: 66rem; background: #fff; color: #1c2329; font: 16px/1.45 system-ui, -apple-system, 'Segoe UI', Roboto, 'DejaVu Sans', sans-serif; overflow-wrap: anywhere; }
h1 { margin: 0.5rem 0; font-size: 1.4rem; line-height: 1.25; }
h2 { margin: 2rem 0 0.75rem; padding-bottom: 0.25rem; border-bottom: 1px solid var(--edge); font-size: 1.1rem; }
small, dt, figcaption { color: var(--faint); }
dl { display: grid; grid-template-columns: max-content 1fr; gap: 0.15rem 1rem; margin: 0.75rem 0; }
dd { margin: 0; }
ul { margin: 0.25rem 0 0; padding: 0; list-style: none; font-size: 0.85rem; }
.legend { display: flex; flex-wrap: wrap; gap: 0.25rem 1.25rem; color: var(--faint); }
li.set, li.missing, li.unset, li.unwritten, .legend li { padding-left: 1.3rem; position: relative; }
li.more { padding-left: 1.3rem; }
li.set::before, li.missing::before, li.unset::before, li.unwritten::before, .legend li::before { content: ''; position: absolute; left: 0; top: 0.3em; width: 0.9rem; height: 0.7em; }
li.missing::before { background: var(--missing); }
li.unset::before { background: var(--unset); }
li.unwritten::before { background: var(--unwritten); }
li.set::before { left: 0.1rem; width: 0.7em; border-radius: 50%; background: var(--set); }
.legend li.own::before { top: 0.65em; height: 0; border-top: 2px solid var(--line); }
.legend li.default::before { top: 0.65em; height: 0; border-top: 2px dashed var(--line); }
.legend li.limit::before { top: 0.65em; height: 0; border-top: 1px solid var(--limit); }
section { display: grid; grid-template-columns: repeat(auto-fill, minmax(min(100%, 26rem), 1fr)); gap: 1.5rem 2rem; }
figure { margin: 0; min-width: 0; max-width: 34rem; }
figcaption { margin-bottom: 0.35rem; font-size: 0.85rem; line-height: 1.35; }
figcaption b { color: #1c2329; font-size: 1rem; }
svg { display: block; width: 100%; height: auto; }
svg text { fill: #3d4851; font-size: 135px; }
svg .end { text-anchor: end; }
svg .mid { text-anchor: middle; }
svg .cause { fill: #1c2329; font-size: 125px; }
svg .plot { fill: #fff; stroke: var(--edge); stroke-width: 8; }
svg .tick, svg .zero { fill: none; stroke: var(--edge); stroke-width: 6; }
svg .zero { stroke: var(--faint); }
svg .missing { fill: var(--missing); fill-opacity: 0.55; stroke: var(--missing); stroke-width: 10; }
svg .unset { fill: var(--unset); fill-opacity: 0.3; stroke: var(--unset); stroke-width: 10; }
svg .unwritten { fill: var(--unwritten); fill-opacity: 0.5; stroke: var(--unwritten); stroke-width: 10; }
svg .own, svg .default { fill: none; stroke: var(--line); stroke-width: 22; stroke-linejoin: round; }
svg .default { stroke-width: 16; stroke-dasharray: 45 35; }
svg path.limit { stroke: var(--limit); stroke-width: 12; }
svg text.limit { fill: var(--limit); }
svg circle.set { fill: var(--set); stroke: #fff; stroke-width: 12; }
table { width: 100%; border-collapse: collapse; font-size: 0.9rem; }
th, td { padding: 0.3rem 0.5rem 0.3rem 0; border-bottom: 1px solid var(--edge); text-align: left; vertical-align: top; }
th { color: var(--faint); font-weight: normal; }
td.set { box-shadow: inset 0.25rem 0 var(--set); padding-left: 0.6rem; }
td.missing { box-shadow: inset 0.25rem 0 var(--missing); padding-left: 0.6rem; }
td.unset { box-shadow: inset 0.25rem 0 var(--unset); padding-left: 0.6rem; }
td.unwritten { box-shadow: inset 0.25rem 0 var(--unwritten); padding-left: 0.6rem; }
.sign { display: grid; grid-template-columns: 2fr 1fr 2fr; gap: 0 2rem; margin-top: 4.5rem; break-inside: avoid; }
.sign p { margin: 0; padding-top: 0.25rem; border-top: 1px solid #1c2329; color: var(--faint); font-size: 0.85rem; }
@media print {
  * { print-color-adjust: exact; -webkit-print-color-adjust: exact; }
  body { max-width: none; padding: 0; font-size: 11pt; }
  section { grid-template-columns: 1fr 1fr; }
  figure, tr { break-inside: avoid; }
  h1, h2 { break-after: avoid; }
  thead { display: table-header-group; }
}
";

/// What its marks say.
pub(crate) const LEGEND: &str = "<ul class=\"legend\">
<li class=\"own\">number</li>
<li class=\"default\">default in its place</li>
<li class=\"limit\">limit of a power, by the numbers at the right</li>
<li class=\"set\">set by a client</li>
<li class=\"missing\">missing</li>
<li class=\"unset\">not set, not stored</li>
<li class=\"unwritten\">not written</li>
</ul>
";

/// Where who accepts the run signs.
pub(crate) const SIGNATURE: &str = "<h2>Acceptance</h2>
<div class=\"sign\"><p>Name</p><p>Date</p><p>Signature</p></div>
";
