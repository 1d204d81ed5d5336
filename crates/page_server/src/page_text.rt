//! The page, by `tools/page` from `page/index.html`.

/// What a browser may do for it: run its style and its script, by their hashes, and ask where it came from.
pub(crate) const POLICY: &str =
    "default-src 'none'; style-src 'sha256-Wme/BkSH3vjJGQiKo+eX1uw2CRaPO17cbVGZvk3BwPc='; script-src 'sha256-+OGocIESjMORdGtRA9WxoO3WXVSaclZqRylWzmozOZI='; connect-src 'self'; img-src data:; base-uri 'none'; form-action 'none'; frame-ancestors 'none'; require-trusted-types-for 'script'; trusted-types 'none'";

/// Its text.
pub(crate) const PAGE: &str = r##"<!doctype html>
<html lang="en">
<head>
<meta charset="utf-8">
<title>sunsite</title>
<meta name="viewport" content="width=device-width, initial-scale=1">
<link rel="icon" href="data:,">
<style>
:root {
  --back: #f1f3f6; --card: #fff; --sunk: #eef1f5; --ink: #17202a; --faint: #55616e; --edge: #dbe1e8; --track: #e1e6ec; --rim: #8490a0; --live: #1d5c9e; --good: #1c7440;
  --warn: #754800; --warn-back: #fff6df; --warn-edge: #d9a93c; --bad: #a61b16; --bad-back: #fdeeec; --bad-edge: #e3a49f; color-scheme: light dark;
}
@media (prefers-color-scheme: dark) { :root {
  --back: #0d1217; --card: #151b22; --sunk: #1c242d; --ink: #e5eaef; --faint: #9fabb8; --edge: #28313b; --track: #2b3641; --rim: #6b7886; --live: #74b4f4; --good: #63cf92;
  --warn: #f3c969; --warn-back: #292112; --warn-edge: #80651f; --bad: #ff9c93; --bad-back: #2c1716; --bad-edge: #7d3733;
} }
* { box-sizing: border-box; margin: 0; padding: 0 } ul { list-style: none }
html { scroll-padding-top: 4rem }
body { background: var(--back); color: var(--ink); font: 15px/1.45 system-ui, sans-serif; font-variant-numeric: tabular-nums; overflow-wrap: anywhere }
h1, h2 { font-size: 1rem; font-weight: 650 } b { font-weight: 600 }
small, .faint { font-size: .8125rem; font-weight: 400 } small, .faint, nav a, dt, h3, .ends, thead th { color: var(--faint) }
[hidden], .plain :is(td:has(> .spark), #tags thead th:nth-child(4)) { display: none !important }
.skip { position: absolute; left: 1rem; top: -4rem; z-index: 9; padding: .5rem 1rem; background: var(--card); color: inherit } .skip:focus { top: .5rem }
:focus-visible { outline: 2px solid var(--live); outline-offset: 2px }
::placeholder { color: var(--faint) } button, input { font: inherit; color: inherit; border: 0; background: none; text-align: inherit } button { cursor: pointer } button:not(.quiet):hover { text-decoration: underline }
.quiet { flex: none; padding: .25rem .7rem; border: 1px solid var(--edge); border-radius: 6px; font-size: .8125rem; white-space: nowrap }
.icon { display: block; width: 1.15em; height: 1.15em; flex: none; fill: none; stroke: currentColor; stroke-width: 1.8; stroke-linecap: round; stroke-linejoin: round }
.bad-text { color: var(--bad) } .warn-text { color: var(--warn) } .good-text { color: var(--good) } .cut { overflow: hidden; text-overflow: ellipsis; white-space: nowrap }

header { position: sticky; top: 0; z-index: 5; background: var(--card); border-bottom: 1px solid var(--edge) } header > div { display: flex; align-items: center; gap: .6rem; height: 3rem }
header > div, main, footer { max-width: 1280px; margin: 0 auto; padding: 0 20px }
.dot { width: .65rem; height: .65rem; border-radius: 50%; flex: none; background: var(--rim) } .good .dot { background: var(--good) } .warn .dot { background: var(--warn-edge) } .bad .dot { background: var(--bad) }
nav { display: flex; margin-left: auto; font-size: .8125rem } nav a { padding: .25rem .55rem; text-decoration: none; white-space: nowrap } #when { margin: 0 .5rem; white-space: nowrap }
main { display: grid; grid: auto / repeat(12, minmax(0, 1fr)); gap: 16px; padding-block: 16px }
section { grid-column: span 12; min-width: 0; padding: 16px 18px; border: 1px solid var(--edge); border-radius: 10px; background: var(--card) }
.head { display: flex; flex-wrap: wrap; align-items: baseline; justify-content: space-between; gap: .25rem .75rem; margin-bottom: 12px } .more { margin-top: 10px } footer { padding-bottom: 32px }
dd { font-weight: 600 } .rows > div { display: flex; justify-content: space-between; gap: .75rem } .rows dd { white-space: nowrap } #facts { display: flex; flex-wrap: wrap; gap: 6px 26px } #facts dt { font-size: .75rem }

#state { display: flex; flex-wrap: wrap; align-items: center; gap: 12px 28px } #state > div { display: flex; align-items: center; gap: 14px; flex: 1 1 22rem; min-width: 0 }
#state .icon { width: 36px; height: 36px; color: var(--faint); stroke-width: 1.5 } #state-line { font-size: 1.375rem; line-height: 1.25; font-weight: 650 } .good #state .icon { color: var(--good) }
.warn #state, .alarm { border-color: var(--warn-edge); background: var(--warn-back) } :is(.warn #state, .alarm) .icon, .warn #state-line { color: var(--warn) }
.bad #state, .alarm.urgent { border-color: var(--bad-edge); background: var(--bad-back) } :is(.bad #state, .urgent) .icon, .bad #state-line { color: var(--bad) }
.alarm { display: grid; grid: auto / auto minmax(0, 1fr) auto; gap: 2px 12px; margin-top: 10px; padding: 12px 14px; border: 1px solid var(--warn-edge); border-left-width: 5px; border-radius: 8px } .alarm.urgent { border-left-color: var(--bad) }
.alarm .icon { margin-top: .15em } .alarm time { font-size: .8125rem } .alarm > :nth-child(n+4) { grid-column: 2 / -1; font-size: .875rem } .alarm summary { cursor: pointer } .alarm li::before { content: '↳ ' }

.range { position: relative; height: 8px; min-width: 60px; border-radius: 4px; background: var(--track) } .range i { position: absolute; top: 0; bottom: 0; border-radius: 4px; background: var(--live) } .range .zero { width: 1px; background: var(--rim) } .range .mark { inset-block: -3px; width: 2px; background: var(--ink) }
.range :is(.shut, .gone), .range.none, .key { background: repeating-linear-gradient(135deg, var(--hatch) 0 1.5px, transparent 1.5px 5px) } .shut { --hatch: var(--rim) } .gone { --hatch: var(--bad) } .none { --hatch: var(--warn-edge) }
.key { display: inline-block; width: .7rem; height: .7rem; margin-right: .5rem; border-radius: 3px; border: 1px solid var(--rim) } .range.big { height: 16px; margin: 12px 0 6px }
.ends { display: flex; justify-content: space-between; margin-top: 3px; font-size: .6875rem; line-height: 1.2 }
#power { grid-column: span 4; display: flex; flex-direction: column } #power figure { margin-top: auto; padding-top: 14px } #power-now { font-size: 2.75rem; line-height: 1.1; font-weight: 600; letter-spacing: -.03em } #power-now small { margin-left: .2em; font-size: 1.25rem; letter-spacing: 0 } #power dl { margin-top: 8px } #power dl div { padding: 4px 0; border-bottom: 1px solid var(--edge) }

#site { grid-column: span 8 } #power[hidden] + #site, main:has(.wide) :is(#site, #power) { grid-column: span 12 }
#site { display: flex; flex-direction: column } #picture { margin-block: auto }
#picture { position: relative; display: grid; grid: auto / minmax(0, 13fr) 70px minmax(0, 11fr) 70px minmax(0, 10fr); align-items: center } #picture.wide { grid: auto / minmax(0, 30fr) 40px minmax(0, 12fr) 40px minmax(0, 11fr) }
#picture > svg { position: absolute; inset: 0; width: 100%; height: 100%; pointer-events: none } #devices { grid-column: 1 } #gateway { grid-column: 3 } #clients { grid-column: 5 } h3 { margin-bottom: 6px; font-size: .75rem; font-weight: 500 }
.node { position: relative; padding: 8px 10px; border: 1px solid var(--edge); border-radius: 8px; background: var(--card) } li + .node { margin-top: 8px } .node .icon { color: var(--faint) } .node .range { height: 6px; margin: 6px 0 4px } .node small { display: block }
.node .top { display: flex; align-items: center; gap: 8px; font-weight: 600 } .node .top > :nth-child(2) { flex: 1; min-width: 0; font-weight: 600 } .node .top > :nth-child(3) { white-space: nowrap }
.node.lost { border: 1px dashed var(--bad); background: var(--bad-back) } .lost :is(.icon, small, .top > :last-child) { color: var(--bad) } .node.void { border-style: dashed; color: var(--faint) }
#gateway .node { padding: 12px 14px; border: 1.5px solid var(--live) } #gateway .icon { color: var(--live) } #gateway dl { margin-top: 6px; font-size: .8125rem }
.wide #devices ul { display: grid; grid: auto / repeat(auto-fill, minmax(72px, 1fr)); gap: 4px } .wide #devices .node { margin: 0; padding: 3px 7px; border-radius: 6px; font-size: .75rem } .wide #devices :is(.icon, small) { display: none } .wide #devices .top, .wide #devices .top > * { display: block; width: 100% } .wide #devices .range { height: 4px; margin: 2px 0 }
.wire, .flow { fill: none; stroke: var(--live); stroke-linecap: round } .wire { stroke-opacity: .28 } .flow { stroke-width: 2; stroke-dasharray: 1 13 } .wire.lost { stroke: var(--bad); stroke-opacity: 1; stroke-dasharray: 4 5 } .cross { fill: var(--card); stroke: var(--bad); stroke-width: 1.8 }
@keyframes flow { to { stroke-dashoffset: -28 } }
@media (prefers-reduced-motion: no-preference) { body:not(.stale) .flow { animation: flow 1.6s linear infinite } body:not(.stale) .flow.back { animation-direction: reverse } }

table { width: 100%; border-collapse: collapse; font-size: .875rem } th, td { padding: 6px 14px 6px 0; border-top: 1px solid var(--edge); text-align: left; font-weight: 400 } thead th { padding-top: 0; border: 0; font-size: .75rem } tr > :last-child { padding-right: 0 } th button { font-weight: 600 } th small { display: block } .num { text-align: right; white-space: nowrap } td.num { font-weight: 600 }
#tags table { table-layout: fixed } #tags thead th:first-child { width: 23% } #tags thead th:nth-child(2) { width: 12% } #tags thead th:nth-child(4) { width: 148px } #tags thead th:nth-child(5) { width: 32% }
.group button { display: flex; align-items: center; gap: 8px; width: 100%; padding-top: 4px } .group [aria-expanded=true] .icon { transform: rotate(90deg) } .detail td { padding-bottom: 16px; border: 0 }
.tools { display: flex; flex-wrap: wrap; gap: 8px; align-items: center; margin-bottom: 12px } .tools input { flex: 0 1 23rem; min-width: 0; padding: .3rem .7rem; border: 1px solid var(--rim); border-radius: 6px } .tools p { margin-left: auto }
#outputs { grid-column: span 7 } #sets { grid-column: span 5; align-self: start } #outputs th small { display: inline; margin-left: .6em } #outputs table { table-layout: fixed } #outputs thead th:first-child { width: 42% } #outputs thead th:nth-child(2) { width: 14% } #outputs thead th:nth-child(3) { width: 20% }
.spark { display: block; width: 132px; height: 26px } .line, .cap { fill: none; stroke: var(--live); stroke-width: 1.5; stroke-linejoin: round; vector-effect: non-scaling-stroke } .cap { stroke: var(--ink); stroke-dasharray: 4 3 } .band { stroke: var(--live); stroke-opacity: .3 } .gap { stroke: var(--track) } .in .gap { stroke: var(--warn-edge); stroke-opacity: .5 }

.two { display: grid; grid: auto / minmax(0, 4fr) minmax(0, 8fr); gap: 28px } .two table { margin-top: 12px }
#listing { max-height: 30rem; overflow: auto; border: 1px solid var(--edge); border-radius: 8px } #listing table { margin: 0; font-size: .8125rem } #listing :is(th, td) { padding: 1px 14px 1px 0; border: 0; line-height: 1.6; vertical-align: top } #listing thead th { position: sticky; top: 0; padding-block: 5px; background: var(--sunk); white-space: nowrap } #listing tr > :first-child { width: 3.4em; padding-left: 8px; text-align: right; color: var(--faint) }
#listing :is(code, pre) { font: .8125rem/1.6 ui-monospace, Consolas, monospace; white-space: pre-wrap } #listing i { color: var(--faint); font-style: normal } #listing pre { padding-bottom: 8px; color: var(--faint); font-size: .75rem } #listing :is(.now, .known) { white-space: nowrap } #listing .now { font-weight: 600; color: var(--live) }
#charts { display: grid; grid: auto / repeat(auto-fill, minmax(min(100%, 330px), 1fr)); gap: 20px 28px } figcaption { display: flex; gap: .75rem; align-items: baseline; margin-bottom: 6px } output { margin-left: auto; white-space: nowrap; font-weight: 600; font-size: .875rem }
.plot { position: relative; height: 92px; margin-left: 48px; border: solid var(--edge); border-width: 0 0 1px 1px } .plot svg { display: block; width: 100%; height: 100%; overflow: visible } .plot .cursor { position: absolute; inset-block: 0; width: 1px; background: var(--ink) } .plot > small { position: absolute; right: calc(100% + 6px); bottom: 0; font-size: .6875rem; line-height: 1; white-space: nowrap } .plot > .high { bottom: auto; top: 0 } .plot + .ends { margin-left: 48px }
#event-list { max-height: 22rem; overflow: auto } #event-list li { display: grid; grid: auto / 5rem 1.2rem minmax(0, 1fr); gap: 8px; padding: 4px 0; border-bottom: 1px solid var(--edge); font-size: .875rem }
.stale main > section:not(#state, #events) { --ink: var(--faint); --live: var(--faint); --good: var(--faint); --card: var(--sunk); color: var(--faint); background: var(--sunk) }

@media (max-width: 1080px) { #power, #site, #outputs, #sets { grid-column: span 12 } nav { display: none } #when { margin-left: auto } .two { grid: auto / minmax(0, 1fr) } }
@media (max-width: 700px) {
  main { gap: 10px; padding: 10px } section { padding: 14px } header > div { padding: 0 14px }
  #facts { display: grid; grid: auto / repeat(3, auto); width: 100%; justify-content: space-between } #state > div { flex-basis: 100% } .alarm { grid: auto / auto minmax(0, 1fr) } .alarm time { grid-column: 2 }
  #picture { display: block !important } #picture > svg { display: none } #picture > div + div { margin-top: 10px; padding-top: 18px; background: linear-gradient(var(--live), var(--live)) 24px 0 / 2px 14px no-repeat }
  .cards thead { position: absolute; clip-path: inset(50%) } .cards, .cards tbody { display: block } .cards tr { display: grid; grid: auto / minmax(0, 1fr) auto; gap: 3px 14px; padding: 9px 0; border-top: 1px solid var(--edge); align-items: center } .cards :is(th, td) { padding: 0; border: 0 } .cards .num { grid-column: 2; grid-row: 1 } .cards tr > [data-head] { grid-column: 1 / -1 } .cards [data-head]:not([data-head=''])::before { content: attr(data-head); margin-right: .5em; color: var(--faint); font-size: .75rem } .cards :is(.group, .detail) { display: block } .cards td:is(:empty, :has(> [hidden])) { display: none }
  .spark { width: 110px } .tools input { flex: 1 1 100% } #listing .known { display: none } #event-list li { grid: auto / 4.2rem 1.2rem minmax(0, 1fr) }
}
</style>
</head>
<body>
<a class="skip" href="#state">To the state of the plant</a>
<header><div><span class="dot" aria-hidden="true"></span><h1 id="name" class="cut">sunsite</h1><nav id="nav" aria-label="Parts of this page"></nav><small id="when"></small></div></header>
<main id="main">
  <section id="state" aria-label="State"><div><span id="state-icon"></span><div><p id="state-line" role="status">Asking the gateway …</p><p id="state-sub" class="faint"></p></div></div><dl id="facts"></dl></section>
  <noscript><section>This page needs JavaScript; <a href="/status.json">/status.json</a> says the same as text.</section></noscript>
</main>
<footer class="faint" id="foot"></footer>
<script>
'use strict';
// What the gateway says is data: it becomes text and attributes alone, never markup.

// -- tools
const $ = id => document.getElementById(id);
/** Makes an element, `tag.class`, of a text or of attributes: `on..` listens, and what is null is left out. */
function make(tag, given, ...kids) {
  const [name, own] = tag.split('.'), node = /^(svg|path|circle)$/.test(name) ? document.createElementNS('http://www.w3.org/2000/svg', name) : document.createElement(name);
  if (own) node.setAttribute('class', own);
  if (typeof given !== 'object') node.textContent = given ?? '';
  else for (const [key, value] of Object.entries(given)) {
    if (value == null) continue;
    if (key === 'text') node.textContent = value;
    else if (key.startsWith('on')) node.addEventListener(key.slice(2), value);
    else node.setAttribute(key, value);
  }
  node.append(...kids.filter(kid => kid != null));
  return node;
}
// Only what changed is touched, so that focus, selection and screen readers stay undisturbed.
const put = (node, text) => { if (node.textContent !== String(text)) node.textContent = text; };
const attr = (node, key, value) => { if (value == null) node.removeAttribute(key); else if (node.getAttribute(key) !== String(value)) node.setAttribute(key, value); };
const dress = (node, name) => attr(node, 'class', name);
/** Keeps a child for each item, by its key: `build` makes it, its `show` takes the item. */
function keyed(parent, items, key, build) {
  const old = parent.kept || new Map(), kept = parent.kept = new Map();
  for (const item of items) kept.set(key(item), old.get(key(item)) || build(item));
  for (const [name, node] of old) if (!kept.has(name)) node.remove();
  let at = parent.firstChild;
  for (const node of kept.values()) if (node === at) at = at.nextSibling; else parent.insertBefore(node, at);
  for (const item of items) kept.get(key(item)).show?.(item);
}
const with_ = (node, show) => Object.assign(node, { show });
/** Names and what they are; a third part is the sign of a legend. */
const define = (list, rows) => keyed(list, rows.filter(row => row[1] != null), row => row[0], ([name, , sign]) => {
  const value = make('dd');
  return with_(make('div', {}, make('dt.cut', {}, sign ? make('span', { class: 'key ' + sign }) : null, name), value), row => put(value, row[1]));
});
const ICONS = {
  good: 'M12 2.5a9.5 9.5 0 1 0 0 19 9.5 9.5 0 0 0 0-19ZM7.8 12.3l3 3 5.6-6', warn: 'M12 3 1.8 20.5h20.4ZM12 10v5M12 17.6v.1', bad: 'M8 2.5h8l5.5 5.5v8L16 21.5H8L2.5 16V8ZM12 7v6M12 16.4v.1', wait: 'M12 2.5a9.5 9.5 0 1 0 0 19 9.5 9.5 0 0 0 0-19ZM12 7v5.2l3.4 2',
  inverter: 'M3 4h18v16H3ZM3 20 21 4M6.5 8.5H11M13 15.7c1-1.6 2-1.6 3 0s2 1.6 3 0', meter: 'M4 3h16v18H4ZM8 12a4 4 0 0 1 8 0M12 12l2-2.6M8 17h8', battery: 'M3 7h16v10H3ZM21.5 10v4M10 9.5 8 12.5h3.5l-2 2.6',
  gate: 'M4 8h16v8H4ZM8 12v.1M12 12v.1M16 12h1M7 8V4M17 8V4M7 20v-4M17 20v-4', client: 'M3 4h18v12H3ZM8 20h8M12 16v4', right: 'M9 5l7 7-7 7',
};
const icon = name => make('svg.icon', { viewBox: '0 0 24 24', 'aria-hidden': 'true' }, make('path', { d: ICONS[name] }));
const swap = (node, name) => { if (node.name !== name) { node.name = name; node.replaceChildren(icon(name)); } };
const clamp = (x, low, high) => Math.min(high, Math.max(low, x));

// -- numbers, units, times
const formats = [];
const digits = (value, places) => (formats[places] ||= new Intl.NumberFormat('en', { minimumFractionDigits: places, maximumFractionDigits: places })).format(value).replace('-', '−');
const count = n => digits(n, 0);
const many = (n, one, more) => `${count(n)} ${n === 1 ? one : more || one + 's'}`;
const scaled = (value, exponent) => exponent < 0 ? value / 10 ** -exponent : value * 10 ** exponent;
const unitOf = tag => tag.unit === 'C' ? '°C' : (tag.unit || '').replace(/^% .*/, '%');
const plain = (tag, value) => tag.type === 'BOOL' ? value ? 'on' : 'off' : digits(scaled(value, tag.exponent), clamp(-tag.exponent, 0, 10));
const worded = (tag, value) => value == null ? '–' : plain(tag, value) + (unitOf(tag) ? '\u202f' + unitOf(tag) : '');
function watts(w) {
  const size = Math.abs(w);
  return size >= 1e6 ? [digits(w / 1e6, size < 1e7 ? 2 : 1), 'MW'] : size >= 1e3 ? [digits(w / 1e3, size < 1e4 ? 2 : 1), 'kW'] : [count(w), 'W'];
}
const short = (tag, value) => tag.type === 'BOOL' || unitOf(tag) !== 'W' ? plain(tag, value) : power(scaled(value, tag.exponent));
const power = w => watts(w).join('\u202f');
function clock(time) {
  const date = new Date(time), text = date.toLocaleTimeString('en-GB');
  return date.toDateString() === new Date().toDateString() ? text : `${date.toLocaleDateString('sv')} ${text}`;
}
function span(s) {
  s = Math.max(0, s);
  return s < 1 && s ? `${Math.round(s * 1000)} ms` : s < 90 ? `${Math.round(s)} s` : s < 5400 ? `${Math.round(s / 60)} min` : s < 172800 ? `${Math.floor(s / 3600)} h ${Math.floor(s % 3600 / 60)} min` : `${Math.floor(s / 86400)} d ${Math.floor(s % 86400 / 3600)} h`;
}

// -- what is known
let site = null, status = null;            // /site.json and the last /status.json
let tags = new Map(), values = new Map();  // by name: of the site, of the last scan
let arrived = 0, moved = 0, failed = 0; // when a status came, when another scan, how many failed
const history = { kept: false, series: new Map(), step: 10, count: 360, time: 0, events: [], told: 0 };
const hour = key => history.series.get(key);
const view = { filter: '', open: new Map(), wide: new Set(), facts: new Set(), tags: 150, outputs: 16, variables: 12, lines: 400, charts: 6, alarms: 6 };
const now = name => values.get(name) || {};
let start = 0;
const at = seconds => start + seconds * 1000;
const deviceOf = tag => (status.devices[tag.device] || {}).name;
/** The alarm of a tag by its name, or of a device by its number. */
const alarmOf = (kinds, of) => status.alarms.find(alarm => kinds.split(' ').includes(alarm.kind) && (alarm.number ?? alarm.name) === of);
/** The number that a device took last of an output; null where that isn't known. */
const taken = name => { const own = status.outputs[name] || {}; return own.taken ? own.taken.value : null; };
const namesOf = served => served.sum || [served.tag];
/** The number that clients read there, as of the last scan; null where there is none. */
const reads = s => {
  const names = namesOf(s), own = names.map(now).filter(tag => tag.value != null && !tag.cause);
  return alarmOf('served_missing', `${s.model} ${s.point}`) || own.length < (s.partial || names.length) ? null : own.reduce((sum, tag) => sum + tag.value, 0);
};
const inverter = id => id >= 101 && id <= 113 || id === 701, meter = id => id >= 201 && id <= 214;
const kindOf = ids => ids.some(id => id === 124 || id === 713 || id >= 801 && id <= 809) ? 'battery' : ids.some(inverter) ? 'inverter' : ids.some(meter) ? 'meter' : 'gate';
/** The devices, each with its power, its limit and what is rated, as far as tags say so. */
const devices = () => status.devices.map((device, n) => {
  const own = [...tags].filter(([, tag]) => tag.device === n), of = test => (own.find(([, tag]) => test(tag)) || [])[0];
  const told = { ...device, n, lost: device.lost && !device.asleep, rated: (site.devices[n] || {}).rated, kind: kindOf([...device.models, ...own.map(([, tag]) => tag.model)]) };
  const value = name => name && now(name).value != null && !now(name).cause ? scaled(now(name).value, tags.get(name).exponent) : null;
  told.watts = of(tag => tag.access === 'in' && tag.point === 'W' && (inverter(tag.model) || meter(tag.model)));
  told.power = value(told.watts);
  told.cap = of(tag => tag.access === 'out' && tag.point === 'WMaxLimPct');
  const enable = of(tag => tag.access === 'out' && tag.point === 'WMaxLim_Ena');
  told.limit = told.cap && taken(told.cap) != null && (!enable || taken(enable)) ? scaled(taken(told.cap), tags.get(told.cap).exponent) : null;
  return told;
});

// -- parts of the page
function section(id, title, ...kids) {
  const aside = make('small'), node = make('section', { id, 'aria-label': title, hidden: '' }, make('div.head', {}, make('h2', title), aside), ...kids);
  $('main').append(node);
  return Object.assign(node, { aside });
}
/** A table; heads over numbers begin with a blank. Roles are spelled out since phones show rows as cards. */
function table(heads, cards) {
  const body = make('tbody', { role: 'rowgroup' });
  const head = make('tr', { role: 'row' }, ...heads.map(text => make('th', { role: 'columnheader', scope: 'col', class: text[0] === ' ' ? 'num' : text[0] === '*' ? 'known' : null, text: text.replace(/^[ *]/, '') })));
  return Object.assign(make('table', { role: 'table', class: cards ? 'cards' : null }, make('thead', { role: 'rowgroup' }, head), body), { body, heads });
}
const row = (head, ...cells) => make('tr', { role: 'row' }, make('th', { scope: 'row', role: 'rowheader' }, ...head), ...cells);
const cell = (kind, ...kids) => make('td', { role: 'cell', class: kind }, ...kids);
function more(node, key, all, word) {
  const button = node.more ||= node.appendChild(make('button', { class: 'quiet more', onclick: () => { view[key] += 400; render(); } }));
  button.hidden = all <= view[key];
  put(button, `Show ${Math.min(all - view[key], 400)} more of ${many(all, word)}`);
}
/** A bar from `low` to `high`: filled from zero to `value`, hatched beyond `cap` and where `lost` isn't known. */
function bar(big) {
  const fill = make('i'), zero = make('i.zero'), shut = make('i.shut'), gone = make('i.gone'), mark = make('i.mark');
  return with_(make('div', { role: 'meter' }, gone, shut, fill, zero, mark), function ({ low, high, value, cap, lost, label, text }) {
    const part = x => high > low ? clamp((x - low) / (high - low) * 100, 0, 100) : 0, origin = part(clamp(0, low, high)), none = value == null;
    const place = (i, from, to) => { i.hidden = from == null || to <= from; i.style.left = from + '%'; i.style.width = to - from + '%'; };
    dress(this, `range${big ? ' big' : ''}${none && !lost ? ' none' : ''}`);
    place(fill, none ? null : Math.min(origin, part(value)), Math.max(origin, part(value ?? 0)));
    place(shut, cap == null ? null : part(cap), 100); place(gone, lost ? part(high - lost) : null, 100);
    zero.hidden = low >= 0 || high <= 0; zero.style.left = origin + '%';
    mark.hidden = cap == null; mark.style.left = `calc(${part(cap ?? 0)}% - 1px)`;
    for (const [key, to] of Object.entries({ label, valuemin: low, valuemax: high, valuenow: clamp(value ?? low, low, high), valuetext: text })) attr(this, 'aria-' + key, to);
  });
}
function ranged() {
  const own = bar(), low = make('span'), high = make('span');
  return with_(make('div', {}, own, make('div.ends', { 'aria-hidden': 'true' }, low, high)), function (name, kind, value, text) {
    this.hidden = !kind || kind.type === 'BOOL';
    if (this.hidden) return;
    own.show({ ...kind, value, label: `${name} in its range`, text });
    put(low, plain(kind, kind.low)); put(high, plain(kind, kind.high));
  });
}

// -- alarms
const sentence = text => text.replace(/^(no|a|the) /, word => word.charAt(0).toUpperCase() + word.slice(1)) + '.';
/** Alarms by what is at their root: under it stands what follows from it. */
function troubles() {
  const groups = new Map();
  for (const alarm of status.alarms) {
    let root = alarm;
    for (let next; (next = status.alarms[root.by]);) root = next;
    // devices behind one address that are lost for one cause are one trouble
    const address = root.kind === 'device_lost' ? (status.devices[root.number] || {}).address : null;
    const key = address ? `${address} ${root.cause}` : `${root.kind} ${root.number ?? root.name} ${root.kind === 'model_missing' ? root.cause : ''}`;
    const group = groups.get(key) || { key, root, address, roots: new Set(), rest: [], since: root.since, bad: /^(device|output|another|differs)/.test(root.kind) };
    group.roots.add(root); group.since = Math.min(group.since, root.since);
    if (root !== alarm) group.rest.push(alarm);
    groups.set(key, group);
  }
  for (const group of groups.values()) {
    const n = group.roots.size, text = group.root.text;
    group.title = n > 1 ? `${n} devices at ${group.address} are lost${text.slice(text.lastIndexOf(': '))}.` : sentence(text);
    group.follows = [...(n > 1 ? group.roots : []), ...group.rest].map(alarm => sentence(alarm.text));
  }
  return [...groups.values()].sort((a, b) => b.bad - a.bad || b.since - a.since);
}
const alarms = section('alarms', 'Alarms', make('ul'));
function showAlarms(list) {
  alarms.hidden = !list.length;
  put(alarms.aside, status.alarms.length > list.length ? `${status.alarms.length} in all, by their cause` : '');
  keyed(alarms.children[1], list.slice(0, view.alarms), group => group.key, () => {
    const sign = make('span'), title = make('b'), since = make('time'), todo = make('p'), summary = make('summary'), follows = make('ul'), rest = make('details', {}, summary, follows);
    return with_(make('li', {}, sign, title, since, todo, rest), function (group) {
      dress(this, group.bad ? 'alarm urgent' : 'alarm'); swap(sign, group.bad ? 'bad' : 'warn');
      put(title, group.title); put(since, `since ${clock(at(group.since))} · ${span(status.seconds - group.since)}`); put(todo, group.root.todo || '');
      rest.hidden = !group.follows.length;
      put(summary, `${many(group.follows.length, 'alarm')} with it`);
      keyed(follows, group.follows.slice(0, 50), text => text, text => make('li', { text }));
      if (!rest.seen) { rest.seen = true; rest.open = group.follows.length < 6; }
    });
  });
  more(alarms, 'alarms', list.length, 'alarm');
}

// -- is all well
function showState(list) {
  const silent = (Date.now() - arrived) / 1000, still = (Date.now() - moved) / 1000, wait = site ? 3 * site.period / 1000 : 0;
  const lost = failed > 1 || status && silent > 5, stuck = !lost && status && still > Math.max(5, wait);
  const urgent = list.filter(group => group.bad).length, check = 'See whether the service runs and is reached from here.';
  let look = 'wait', line = 'Asking the gateway …', sub = '';
  if (lost) [look, line, sub] = ['bad', 'No answer from the gateway', status ? `What is shown is ${span(silent)} old, from ${clock(status.time)}. ${check}` : check];
  else if (stuck) [look, line, sub] = ['bad', 'The gateway answers, but scans stand still', `The last one was ${span(still)} ago.`];
  else if (list.length) [look, line, sub] = [urgent ? 'bad' : 'warn', list.length > 1 ? `${list.length} things are wrong${urgent && urgent < list.length ? `, ${urgent} of them urgent` : ''}` : list[0].title, `${list.length > 1 ? 'The latest since' : 'Since'} ${clock(at(Math.max(...list.map(group => group.since))))}.`];
  else if (status) [look, line, sub] = ['good', 'All is well', `Devices${status.devices.some(d => d.asleep) ? ' that are awake' : ''} answer, numbers are there, outputs are written.`];
  dress(document.body, `${look}${lost || stuck ? ' stale' : ''}${history.kept ? '' : ' plain'}`);
  swap($('state-icon'), look); put($('state-line'), line); put($('state-sub'), sub);
  document.title = `${look === 'bad' ? '● ' : look === 'warn' ? '▲ ' : ''}${site && site.name || 'sunsite'}`;
  if (!status) return;
  put($('when'), `${lost ? 'last scan' : 'as of'} ${clock(status.time)}`);
  const up = status.devices.filter(d => !d.lost).length;
  define($('facts'), [['Devices', `${up} of ${status.devices.length}`], ['Clients', count(status.clients.length)], ['Scans', count(status.scans)], ['Late', status.late ? count(status.late) : 'none'], ['Steps', `${status.steps ?? '–'} of ${site.program.budget}`], ['Runs for', span(status.seconds)]]);
}

// -- power
const powerText = make('span'), powerUnit = make('small'), powerNow = make('p', { id: 'power-now' }, powerText, powerUnit), powerSub = make('p.faint'), powerBar = bar(true), powerList = make('dl.rows'), powerChart = chart();
const powerPart = section('power', 'Power now', powerNow, powerSub, powerBar, powerList, powerChart);
function showPower(list) {
  const sources = list.filter(d => d.kind !== 'meter' && d.watts), told = sources.filter(d => d.power != null), sum = (of, get) => of.reduce((total, d) => total + get(d), 0);
  powerPart.hidden = !sources.length;
  if (!sources.length) return;
  const gives = sum(told, d => d.power), rated = sources.every(d => d.rated != null) ? sum(sources, d => d.rated) : null, dark = rated && sum(sources.filter(d => d.power == null), d => d.rated);
  const allowed = rated && sum(sources, d => d.rated * (d.limit == null ? 1 : clamp(d.limit, 0, 100) / 100)), capped = rated && allowed < rated - .5, text = told.length ? watts(gives) : ['–', ''];
  put(powerText, text[0]); put(powerUnit, text[1]);
  put(powerPart.aside, told.length < sources.length ? `${told.length} of ${sources.length} are known` : many(sources.length, 'device'));
  put(powerSub, told.length < sources.length ? 'of those that answer' : !rated ? '' : capped ? gives >= allowed * .985 ? 'Held at its limit' : `${count(gives / Math.max(1, allowed) * 100)} % of what it may give` : `${count(gives / rated * 100)} % of what is rated, not limited`);
  powerBar.hidden = !rated;
  if (rated) powerBar.show({ low: sources.some(d => d.kind === 'battery') ? -rated : 0, high: rated, value: told.length ? gives : null, cap: capped ? allowed : null, lost: dark, label: 'Power of the plant', text: `${power(gives)} of ${power(rated)}${capped ? `, limited to ${power(allowed)}` : ''}` });
  define(powerList, [['Limited to', capped ? power(allowed) : null, 'shut'], ['Rated', rated ? power(rated) : 'not in the site file'], ['Not known', dark ? power(dark) : null, 'gone'],
    ...list.filter(d => d.kind === 'meter' && d.watts).map(d => [d.name, d.power == null ? 'not known' : `${power(Math.abs(d.power))} ${d.power < 0 ? 'fed in' : 'drawn'}`])]);
  const total = site.served.find(s => s.point === 'W' && s.sum && inverter(s.model)), cap = [...tags].find(([, tag]) => tag.access === 'site' && tag.point === 'WMax');
  powerChart.hidden = !history.kept || !total || (hour(`served:${total.model} W`) || [0]).every(p => p == null);
  if (total) powerChart.show({ key: `served:${total.model} W`, title: 'Last hour', small: cap ? `dashed: ${cap[0]}` : '', tag: { ...tags.get(total.sum[0]), low: 0 }, cap: cap && 'tag:' + cap[0], capTag: cap && cap[1], value: () => reads(total) });
}

// -- the site as a picture
const wireBox = make('svg', { 'aria-hidden': 'true' }), column = (id, title, ...kids) => make('div', { id }, make('h3', title), ...kids);
const deviceList = make('ul'), clientList = make('ul'), gateName = make('b'), gateList = make('dl.rows'), gate = make('div.node', {}, make('div.top', {}, icon('gate'), gateName), gateList);
const picture = make('div', { id: 'picture' }, wireBox, column('devices', 'Devices', deviceList), column('gateway', 'Gateway', gate), column('clients', 'Clients', clientList)), sitePart = section('site', 'Site', picture);
function deviceNode(device) {
  const sign = make('span'), name = make('button.cut', { title: `${device.name}: show its tags`, text: device.name, onclick: () => filter(device.name) }), value = make('span'), own = bar(), sub = make('small.cut');
  return with_(make('li', {}, make('div.top', {}, sign, name, value), own, sub), function (d) {
    dress(this, d.lost ? 'node lost' : 'node'); swap(sign, d.kind);
    put(value, d.lost ? 'lost' : d.asleep ? 'asleep' : d.power == null ? '' : power(d.kind === 'meter' ? Math.abs(d.power) : d.power));
    const limited = d.limit != null && d.limit < 100, at = `${d.address} unit ${d.unit}`;
    own.hidden = d.lost || d.rated == null || d.power == null;
    if (!own.hidden) own.show({ low: d.kind === 'battery' ? -d.rated : 0, high: d.rated, value: d.power, cap: limited ? d.limit / 100 * d.rated : null, label: `Power of ${d.name}`, text: `${power(d.power)} of ${power(d.rated)}` });
    const said = d.lost ? [(alarmOf('device_lost device_unmapped another', d.n) || { text: 'no SunSpec map' }).text.split(': ').pop(), at] : [d.kind === 'meter' && d.power != null ? d.power < 0 ? 'fed into the grid' : 'drawn from the grid' : null, d.cap ? d.asleep ? null : status.outputs[d.cap].state !== 'written' ? 'limit not written' : limited ? `limited to ${digits(d.limit, d.limit % 1 ? 1 : 0)} %` : 'not limited' : null, d.rated ? `${power(d.rated)} rated` : null].filter(Boolean);
    put(sub, said.join(' · ') || at); attr(sub, 'title', `${at}, models ${d.models.join(' ')}`);
  });
}
function clientNode(client) {
  const sub = make('small.cut');
  return with_(make('li.node', {}, make('div.top', {}, icon('client'), make('span.cut', { text: client.address, title: client.address })), sub), c => {
    put(sub, [c.age ? `${digits(c.requests / c.age, 1)} a second` : many(c.requests, 'request'), c.may_write == null ? null : c.may_write ? 'may write' : 'reads alone', c.writes ? many(c.writes, 'write') : null, c.refused ? `${c.refused} refused` : null].filter(Boolean).join(' · '));
  });
}
let drawn = [];
function showSite(list) {
  const some = status.clients.slice(0, 8), told = ['lost', 'asleep'].flatMap(key => { const n = list.filter(d => d[key]).length; return n ? `, ${n} ${key}` : []; }).join('');
  put(sitePart.aside, many(list.length, 'device') + (told || ', all answer'));
  dress(picture, list.length > 8 ? 'wide' : null);
  keyed(deviceList, list, d => d.n, deviceNode);
  keyed(clientList, some.length ? some : [{ address: '' }], c => c.address, c => c.address ? clientNode(c) : make('li', { class: 'node void', text: `No client is here. They are served at ${site.listen}.` }));
  put(clientList.previousSibling, status.clients.length > 8 ? `Clients: 8 of ${status.clients.length}` : 'Clients');
  put(gateName, site.program.file);
  define(gateList, [['At', site.listen], ['Period', span(site.period / 1000)], ['Last round', status.round_ms == null ? null : `${status.round_ms} ms`],
    ...site.served.slice(0, 5).map(s => [`${s.model} ${s.point}`, worded(tags.get(namesOf(s)[0]), reads(s))])]);
  drawn = list; wires();
}
/** Draws the connections: as wide as the power is large, dots go its way; lost ones have a cross. */
function wires() {
  const frame = picture.getBoundingClientRect(), ways = [];
  if (!frame.width) return;
  const box = node => { const r = node.getBoundingClientRect(); return { left: r.left - frame.left, right: r.right - frame.left, y: r.top - frame.top + r.height / 2 }; };
  const mid = box(gate), high = gate.offsetHeight, spread = (i, n) => mid.y + (n < 2 ? 0 : high * .6 * (i / (n - 1) - .5)), most = Math.max(1, ...drawn.map(d => Math.abs(d.power || 0)));
  if (drawn.length > 8) ways.push([box(deviceList).right + 2, mid.y, mid.left, mid.y, 6, drawn.some(d => !d.lost), drawn.some(d => d.power)]);
  else drawn.forEach((d, i) => { const own = box(deviceList.children[i]); ways.push([own.right, own.y, mid.left, spread(i, drawn.length), 1.5 + 6.5 * Math.abs(d.power || 0) / most, !d.lost, d.kind === 'meter' ? 0 : Math.sign(d.power || 0)]); });
  if (status.clients.length) [...clientList.children].forEach((node, i, all) => { const own = box(node); ways.push([mid.right, spread(i, all.length), own.left, own.y, 1.5, true, 0]); });
  const plan = ways.map(way => way.map(x => Math.round(x * 2))).join();
  if (wireBox.plan === plan) return;
  wireBox.plan = plan; attr(wireBox, 'viewBox', `0 0 ${frame.width} ${frame.height}`);
  wireBox.replaceChildren(...ways.flatMap(([x, y, to, end, width, up, flow]) => {
    const half = (x + to) / 2, level = (y + end) / 2, d = `M${x} ${y}C${half} ${y} ${half} ${end} ${to} ${end}`;
    return up ? [make('path.wire', { d, 'stroke-width': width.toFixed(1) }), flow ? make('path', { class: flow < 0 ? 'flow back' : 'flow', d }) : null].filter(Boolean)
      : [make('path', { class: 'wire lost', d, 'stroke-width': 1.5 }), make('circle.cross', { cx: half, cy: level, r: 8 }), make('path.cross', { d: `M${half - 3} ${level - 3}l6 6m0-6-6 6` })];
  }));
}

// -- tags
const ACCESS = { in: 'read', out: 'written', set: 'set', site: 'shown', time: 'time' }, GROUPS = { set: 'Set by clients', site: 'Shown to clients by the program', time: 'Time' };
const find = make('input', { type: 'search', 'aria-label': 'Filter tags by name, device, point, access', placeholder: 'Filter: name, device, written, missing …', spellcheck: 'false', oninput: () => { view.filter = find.value; render(); } });
const tagCount = make('p.faint', { role: 'status' }), tagTable = table(['Tag', ' Value', 'Range', 'Last hour', 'Where from, what is wrong'], true), tagPart = section('tags', 'Tags', make('div.tools', {}, find, tagCount), tagTable);
function filter(text) { find.value = view.filter = text; render(); tagPart.scrollIntoView(); find.focus({ preventScroll: true }); }
const flip = (set, key) => { if (!set.delete(key)) set.add(key); render(); };
function tagRow({ name }) {
  const button = make('button', { text: name, onclick: () => flip(view.wide, name) }), value = cell('num'), range = ranged(), spark = sparkline(name), where = cell();
  attr(where, 'data-head', '');
  return with_(row([button], value, cell(null, range), cell(null, spark), where), ({ tag }) => {
    const told = now(name), number = told.value ?? told.default, text = number != null ? worded(tag, number) : told.cause ? 'missing' : '–';
    attr(button, 'aria-expanded', history.kept ? view.wide.has(name) : null);
    put(value, text); dress(value, `num${told.value != null ? '' : told.cause && told.default == null ? ' bad-text' : ' faint'}`);
    range.show(name, tag, number, text);
    const alarm = told.cause && alarmOf('input_missing', name), from = tag.model == null ? 'milliseconds since the scan before' : `${tag.device == null ? '' : deviceOf(tag) + ' · '}${tag.model} ${tag.point}`;
    put(where, (alarm ? alarm.text.slice(alarm.text.indexOf(': ') + 2) : told.cause || from) + (told.value == null && told.default != null ? ', its default stands in' : ''));
    dress(where, told.cause ? 'bad-text' : 'faint');
    spark.show(tag);
  });
}
function detailRow({ name }) {
  const graph = chart();
  return with_(make('tr.detail', { role: 'row' }, make('td', { colspan: 5, role: 'cell' }, graph)), ({ tag }) => {
    graph.show({ key: 'tag:' + name, title: name, tag });
  });
}
function groupRow({ key }) {
  const text = make('span.cut'), small = make('small'), button = make('button', { onclick: () => { view.open.set(key, button.getAttribute('aria-expanded') !== 'true'); render(); } }, icon('right'), text, small);
  return with_(make('tr.group', { role: 'row' }, make('th', { colspan: 5, scope: 'rowgroup', role: 'rowheader' }, button)), ({ group }) => {
    put(text, group.title); put(small, `${many(group.items.length, 'tag')}${group.missing ? `, ${group.missing} missing` : ''}`); dress(small, group.missing ? 'bad-text' : null); attr(button, 'aria-expanded', group.open);
  });
}
function showTags() {
  const words = view.filter.toLowerCase().split(/\s+/).filter(Boolean), exact = status.devices.some(d => d.name === view.filter), groups = new Map(), items = [];
  let shown = 0, missing = 0, rows = 0;
  for (const [name, tag] of tags) {
    const device = deviceOf(tag), gone = now(name).cause ? 1 : 0, text = `${name} ${device || ''} ${tag.model} ${tag.point} ${ACCESS[tag.access]}${gone ? ' missing' : ''}`.toLowerCase();
    missing += gone;
    if (exact ? device !== view.filter : !words.every(word => text.includes(word))) continue;
    const key = tag.device ?? tag.access, group = groups.get(key) || { title: device ?? GROUPS[tag.access], items: [], missing: 0 };
    group.items.push({ key: 'tag ' + name, name, tag }); group.missing += gone; shown++;
    groups.set(key, group);
  }
  for (const [key, group] of groups) {
    group.open = tags.size <= 24 || (view.open.get(key) ?? (words.length > 0 || tags.size <= 80));
    if (tags.size > 24) items.push({ key, group });
    if (group.open) for (const item of group.items) if (++rows <= view.tags) {
      items.push(item);
      if (history.kept && view.wide.has(item.name)) items.push({ ...item, key: 'detail ' + item.name, detail: true });
    }
  }
  keyed(tagTable.body, items, item => item.key, item => item.group ? groupRow(item) : item.detail ? detailRow(item) : tagRow(item));
  put(tagCount, `${shown === tags.size ? '' : count(shown) + ' of '}${many(tags.size, 'tag')}${missing ? `, ${count(missing)} missing` : ''}`);
  more(tagPart, 'tags', rows, 'tag');
}

// -- outputs and set values
/** Fills a table: of each item its name, what it is, and cells of which a function says text and class. */
const fill = (own, items, about, ...columns) => keyed(own.body, items, item => item.name, item => {
  const cells = columns.map((_, i) => make('td', { role: 'cell', 'data-head': i ? own.heads[i + 1] : null }));
  return with_(row([make('b', item.name), make('small', about(item))], ...cells), now => columns.forEach((column, i) => { const [text, look = ''] = column(now); put(cells[i], text); dress(cells[i], i ? look : `num ${look}`); }));
});
const outputTable = table(['Output', ' Program set', 'Device was written', 'In the way'], true), outputPart = section('outputs', 'Outputs', outputTable);
const setTable = table(['Name', ' Value', 'By whom, when', 'Lapses'], true), noSets = make('p.faint', 'No point of this site can be set by clients.'), setPart = section('sets', 'Set values', setTable, noSets);
function showOutputs() {
  const all = access => [...tags].filter(([, tag]) => tag.access === access).map(([name, tag]) => ({ ...now(name), ...status.outputs[name], name, tag }));
  const isBad = o => o.state != null && o.state !== 'written', list = all('out').sort((a, b) => isBad(b) - isBad(a)), bad = list.filter(isBad).length, sets = all('set');
  outputPart.hidden = !list.length; noSets.hidden = sets.length > 0; setTable.hidden = !sets.length;
  put(outputPart.aside, bad ? `${bad} of ${list.length} not written` : `all ${list.length} written`);
  fill(outputTable, list.slice(0, view.outputs), ({ tag }) => `${deviceOf(tag)} · ${tag.point}`,
    ({ tag, value }) => [value == null ? 'nothing' : worded(tag, value)],
    ({ name, tag, state, wrote }) => [taken(name) != null ? worded(tag, taken(name)) : wrote || (state == null ? 'nothing so far' : 'not known')],
    ({ name, state }) => { const alarm = alarmOf('output_unwritten differs', name); return alarm ? [`${alarm.text.split(': ').pop()} (${alarm.cause})`, 'bad-text'] : [state ? state === 'written' ? 'nothing' : state : 'no scan yet', 'faint']; });
  more(outputPart, 'outputs', list.length, 'output');
  const isSet = name => Object.hasOwn(status.set, name);
  fill(setTable, sets, ({ tag }) => `${tag.model} ${tag.point}`,
    s => isSet(s.name) ? [worded(s.tag, status.set[s.name])] : [worded(s.tag, s.default), 'faint'],
    s => {
      const lapsed = alarmOf('lapsed', s.name);
      if (lapsed) return [`lapsed at ${clock(at(lapsed.since))}, its default stands in`, 'warn-text'];
      return isSet(s.name) ? [`${s.by || 'before the start'}${s.age == null ? '' : `, ${clock(Date.parse(status.time) - s.age * 1000)}`}`] : [`not set${s.default == null ? '' : ', its default stands in'}`, alarmOf('never_set', s.name) ? 'warn-text' : 'faint'];
    },
    ({ name, tag, left }) => !tag.lapse ? ['never', 'faint'] : isSet(name) && left != null ? [`in ${span(left)} of ${span(tag.lapse)}`, left < tag.lapse / 4 ? 'warn-text' : ''] : [`${span(tag.lapse)} after a write`, 'faint']);
}

// -- the program
const steps = make('b'), stepBar = bar(true), variableTable = table(['Variable', ' Value', 'Range']), lineTable = table([' Line', 'Program', 'After scan', '*Proved here']), scroll = make('div', { id: 'listing', role: 'region', 'aria-label': 'Listing of the program', tabindex: 0 }, lineTable);
const variablePart = make('div', {}, make('p', {}, steps, make('small', ' in the last scan')), stepBar, variableTable), listPart = make('div', {}, scroll), programPart = section('program', 'Program', make('div.two', {}, variablePart, listPart));
const variable = name => Object.hasOwn(site.program.variables, name) ? site.program.variables[name] : null;
const presence = name => name.endsWith('_ok') && tags.has(name.slice(0, -3));
let listing = [];
/** The lines, each in parts: comments stand apart. */
function readListing() {
  let inside = false;
  listing = site.program.lines.map((line, i) => {
    const parts = [];
    for (let text = line.text; text;) {
      const end = text.indexOf(inside ? '*)' : '(*'), cut = end < 0 ? text.length : inside ? end + 2 : end;
      parts.push([inside, text.slice(0, cut)]);
      text = text.slice(cut); if (end >= 0) inside = !inside;
    }
    return { ...line, n: i + 1, parts };
  });
}
const word = (type, x) => type === 'BOOL' ? x ? 'TRUE' : 'FALSE' : count(x);
const proved = ([type, low, high] = []) => !type ? '' : low === high ? word(type, low) : type === 'BOOL' ? 'TRUE or FALSE' : `${count(low)} … ${count(high)}`;
function live(name) {
  if (presence(name)) return now(name.slice(0, -3)).value != null && !now(name.slice(0, -3)).cause ? 'TRUE' : 'FALSE';
  const tag = tags.get(name), value = tag ? now(name).value ?? now(name).default : status.variables[name];
  return value == null ? 'missing' : word((tag || variable(name)).type, value);
}
function lineRow({ line, facts }) {
  if (facts) return make('tr', {}, make('td'), make('td', { colspan: 3 }, make('pre', { text: line.code.map(([n, name, holds]) => `${n} ${name}${holds ? `   ${holds}` : ''}`).join('\n') })));
  const code = make('code'), value = make('td.now'), number = line.code.length ? make('button', { text: line.n, title: 'What is known before each instruction', onclick: () => flip(view.facts, line.n) }) : make('span', line.n);
  for (const [quiet, text] of line.parts) code.append(quiet ? make('i', { text }) : text);
  return with_(make('tr', {}, make('td', {}, number), make('td', {}, code), value, make('td', { class: 'known faint', text: proved(line.proved) })), () => {
    put(value, line.uses.map(name => (line.uses.length > 1 ? name + ' ' : '') + live(name)).join(', '));
    if (line.code.length) attr(number, 'aria-expanded', view.facts.has(line.n));
  });
}
function showProgram() {
  const { file, budget } = site.program, list = Object.entries(status.variables), first = lineTable.body.kept;
  put(programPart.aside, `${file} · ${status.started.program} · accepted: no scan of it can fault`);
  put(steps, status.steps == null ? '–' : `${count(status.steps)} of ${many(budget, 'step')}`);
  stepBar.show({ low: 0, high: budget, value: status.steps, label: 'Steps of the last scan', text: `${status.steps} of ${budget}` });
  variableTable.hidden = !list.length;
  keyed(variableTable.body, list.slice(0, view.variables), v => v[0], ([name]) => {
    const value = cell('num'), range = ranged();
    return with_(row([make('b', name)], value, cell(null, range)), ([, number]) => { const own = variable(name); put(value, live(name)); range.show(name, own && { ...own, exponent: 0 }, number, live(name)); });
  });
  more(variablePart, 'variables', list.length, 'variable');
  keyed(lineTable.body, listing.slice(0, view.lines).flatMap(line => view.facts.has(line.n) ? [{ line }, { line, facts: true }] : [{ line }]), item => item.line.n + (item.facts ? ' facts' : ''), lineRow);
  more(listPart, 'lines', listing.length, 'line');
  const body = listing.findIndex(line => line.code.length);
  if (!first && body > 0) scroll.scrollTop = lineTable.body.children[body].offsetTop - 30;
}

// -- charts
const seen = new Set(), watcher = new IntersectionObserver(list => { for (const e of list) if (e.isIntersecting) seen.add(e.target); else seen.delete(e.target); ask(); }, { rootMargin: '200px' });
const ends = p => Array.isArray(p) ? p : [p, p];
function bounds(points) {
  let low = Infinity, high = -Infinity;
  for (const p of points || []) if (p != null) { low = Math.min(low, ends(p)[0]); high = Math.max(high, ends(p)[1]); }
  return low <= high ? [low, high] : null;
}
/** Draws a series: a line, strokes from the least to the greatest, and gaps where there was no value. */
function draw(paths, points, low, high, width, height) {
  const one = width / (history.count - 1), y = v => (height - (v - low) / (high - low || 1) * height).toFixed(1), ways = ['', '', ''];
  points.forEach((p, i) => {
    const x = ((i + history.count - points.length) * one).toFixed(1), [a, b] = ends(p);
    if (p == null) { ways[0] += `M${x} 0v${height}`; return; }
    if (a !== b) ways[1] += `M${x} ${y(a)}V${y(b)}`;
    ways[2] += `${i && points[i - 1] != null ? 'L' : 'M'}${x} ${y((a + b) / 2)}`;
  });
  paths.forEach((path, i) => { attr(path, 'd', ways[i]); if (i < 2) attr(path, 'stroke-width', one * 1.1); });
}
function pathsOf() { return ['gap', 'band', 'line'].map(kind => make('path', { class: kind })); }
function sparkline(name) {
  const paths = pathsOf(), node = make('svg.spark', { viewBox: '0 -2 132 26', preserveAspectRatio: 'none', role: 'img', 'aria-label': name }, ...paths);
  watcher.observe(node);
  return Object.assign(node, { series: 'tag:' + name, show(tag) {
    const points = hour('tag:' + name);
    if (!points || node.drawn === points.stamp) return;
    node.drawn = points.stamp;
    const [low, high] = bounds(points) || [0, 0];
    dress(node, `spark ${tag.access}`);
    draw(paths, points, low === high ? low - 1 : low, low === high ? high + 1 : high, 132, 22);
    attr(node, 'aria-label', bounds(points) ? `${name} in the last hour: ${worded(tag, low)} to ${worded(tag, high)}` : `${name}: no value`);
  } });
}
function axis(low, high) {
  const step = 10 ** Math.floor(Math.log10((high - low) * .8 || 1)) / 2;
  return low === high ? [Math.min(0, 2 * low), Math.max(0, 2 * low) || 1] : [Math.floor(low / step) * step, Math.ceil(high / step) * step];
}
function chart() {
  const title = make('b.cut'), small = make('small.cut'), out = make('output'), high = make('small.high'), low = make('small'), from = make('span'), to = make('span'), cursor = make('span.cursor', { hidden: '' }), paths = pathsOf(), cap = make('path.cap');
  const plot = make('div.plot', { tabindex: 0, role: 'img', 'aria-label': 'Chart', onpointermove: e => { const r = plot.getBoundingClientRect(); move((e.clientX - r.left) / r.width * (history.count - 1)); }, onpointerleave: () => move(null), onblur: () => move(null), onkeydown: keys }, make('svg', { viewBox: '0 0 600 100', preserveAspectRatio: 'none', 'aria-hidden': true }, ...paths, cap), high, low, cursor);
  const node = make('figure', {}, make('figcaption', {}, title, small, out), plot, make('div.ends', {}, from, to)), time = i => clock(history.time - (history.count - 1 - i) * history.step * 1000).slice(-8);
  let own = null, place = null;
  function read() {
    const points = hour(own.key) || [], p = place == null ? own.value ? own.value() : now(own.key.slice(4)).value : points[place - history.count + points.length], [a, b] = ends(p);
    put(out, (place == null ? '' : time(place) + '  ') + (p == null ? 'no value' : a === b ? worded(own.tag, a) : `${plain(own.tag, a)} … ${worded(own.tag, b)}`));
    cursor.hidden = place == null; cursor.style.left = place / (history.count - 1) * 100 + '%';
  }
  function move(to) { place = to == null ? null : clamp(Math.round(to), 0, history.count - 1); read(); }
  function keys(e) {
    const by = { ArrowLeft: -3, ArrowRight: 3, PageUp: -60, PageDown: 60 }[e.key];
    if (by) { e.preventDefault(); move((place ?? history.count - 1) + by); } else if (e.key === 'Escape') move(null);
  }
  return with_(node, item => {
    if (!own) watcher.observe(node);
    own = item; node.series = item.key; node.also = item.cap;
    const { tag } = item, points = hour(item.key), limit = item.cap && hour(item.cap), stamp = points && points.stamp + (limit ? limit.stamp : '');
    put(title, item.title); put(small, item.small || '');
    if (points && node.drawn !== stamp) {
      node.drawn = stamp;
      const found = bounds(points), level = p => p == null ? null : scaled(scaled(ends(p)[1], item.capTag.exponent), -tag.exponent), caps = limit && limit.map(level), over = bounds(caps) || found;
      let [a, b] = tag.type === 'BOOL' || !found ? [0, 1] : [Math.min(found[0], over[0]), Math.max(found[1], over[1])];
      if (tag.type !== 'BOOL') [a, b] = axis(a > 0 && a < .7 * b ? 0 : a, b);
      draw(paths, points, a, b, 600, 100); if (caps) draw([make('path'), make('path'), cap], caps, a, b, 600, 100);
      put(high, short(tag, b)); put(low, short(tag, a)); dress(node, tag.access); put(from, time(0).slice(0, 5)); put(to, time(history.count - 1).slice(0, 5));
      attr(plot, 'aria-label', `${item.title}: ${found ? `${worded(tag, found[0])} to ${worded(tag, found[1])} in the last hour` : 'no value in the last hour'}. Arrow keys read it.`);
    }
    read();
  });
}
const charts = make('div', { id: 'charts' }), hourPart = section('hour', 'Last hour', charts);
function showHour() {
  const list = [...tags].filter(([, tag]) => tag.access !== 'time' && tag.type !== 'BOOL').sort((a, b) => (a[1].point !== 'W') - (b[1].point !== 'W'))
    .map(([name, tag]) => ({ key: 'tag:' + name, title: name, small: deviceOf(tag), tag }));
  keyed(charts, list.slice(0, view.charts), item => item.key, chart);
  more(hourPart, 'charts', list.length, 'chart');
}
let asking = false, due = 0, again = 0, heard = null;
/** Asks for the last hour of what is to be seen, 16 series at a time, and for new events; once a minute where it isn't kept. */
async function ask() {
  if (asking || !status || Date.now() < again) return;
  asking = true;
  try {
    const old = Date.now() > due, want = [...new Set([...seen].filter(node => node.isConnected).flatMap(node => [node.series, node.also || node.series]))].filter(key => old || !history.series.has(key));
    if (old) due = Date.now() + history.step * 1000;
    for (let i = 0; i < want.length || !i && status.events !== heard; i += 16) {
      const keys = want.slice(i, i + 16), { series = {}, events = [], ...told } = await get(`/history.json?series=${keys.map(encodeURIComponent).join(',')}&events=${history.told}`);
      heard = status.events;
      Object.assign(history, told, { kept: true, time: Date.parse(told.time), events: [...events.reverse(), ...history.events].slice(0, 256) });
      for (const key of keys) history.series.set(key, Object.assign(series[key] || [], { stamp: told.time }));
      if (i + 16 >= want.length) render();
    }
  } catch (why) { if (why.message === '404') again = Date.now() + 60000; } finally { asking = false; }
}

// -- events
const eventList = make('ul', { id: 'event-list', tabindex: 0, 'aria-label': 'Events, the latest first' }), eventPart = section('events', 'Events', eventList);
const tone = text => /( lost | missing| unwritten|refuse| lacks | lapsed| differs | another | never |^late |left out)/.test(text) ? 'bad' : /( back| present| shown| written| agrees)$|found /.test(text) ? 'good' : 'info';
function showEvents() {
  keyed(eventList, history.events.length ? history.events : [{ n: 0 }], e => e.n, e => {
    const kind = tone(e.text || '');
    return e.n ? make('li', {}, make('time.faint', { datetime: e.time, text: clock(e.time) }), make('span', { class: kind + '-text' }, kind === 'info' ? '' : icon(kind === 'bad' ? 'warn' : kind)), make('span', e.text)) : make('li', {}, make('span.faint', 'None yet.'));
  });
}

// -- the loop
async function get(path) {
  const answer = await fetch(path, { cache: 'no-store', credentials: 'omit', signal: AbortSignal.timeout(4000) });
  if (!answer.ok) throw new Error(answer.status);
  return JSON.parse(await answer.text(), (key, value) => typeof value === 'string' ? value.replace(/[\u202a-\u202e\u2066-\u2069]/g, '\ufffd') : value); // no name turns the text around it
}
const parts = [sitePart, tagPart, setPart, programPart, hourPart, eventPart];
function render() {
  const list = status ? troubles() : [];
  showState(list);
  if (!status) return;
  for (const part of parts) part.hidden = !history.kept && (part === hourPart || part === eventPart);
  const all = devices(), zone = -new Date().getTimezoneOffset() / 60;
  showAlarms(list); showPower(all); showSite(all); showTags(); showOutputs(); showProgram(); showHour(); showEvents();
  for (const link of $('nav').children) link.hidden = $(link.hash.slice(1)).hidden;
  put($('foot'), `sunsite ${status.started.version} · site ${status.started.site} · program ${status.started.program} · times are UTC${zone < 0 ? '−' : '+'}${Math.abs(zone)}`);
}
let version = '';
async function turn() {
  try {
    const told = await get('/status.json');
    if (version && JSON.stringify(told.started) !== version) return location.reload();
    if (!version) {
      site = await get('/site.json'); tags = new Map(Object.entries(site.tags).sort((a, b) => a[1].number - b[1].number)); version = JSON.stringify(told.started);
      start = Date.parse(told.time) - told.seconds * 1000; readListing(); put($('name'), site.name || 'sunsite');
    }
    arrived = Date.now();
    if (!status || told.scans !== status.scans) moved = arrived;
    status = told; values = new Map(Object.entries(told.tags)); failed = 0;
  } catch { failed++; }
  render(); ask();
  setTimeout(turn, document.hidden ? 5000 : 1000);
}
for (const part of [sitePart, tagPart, outputPart, setPart, programPart, hourPart, eventPart]) $('nav').append(make('a', { href: '#' + part.id, text: part.querySelector('h2').textContent }));
new ResizeObserver(() => status && wires()).observe(picture);
turn();
</script>
</body>
</html>
"##;
