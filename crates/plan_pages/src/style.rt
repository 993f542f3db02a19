//! How the page looks.

/// The style of the page: light or dark as the reader wants it, and for paper.
pub const STYLE: &str = "
:root {
  color-scheme: light dark;
  --paper: #fff; --ink: #1b1f24; --soft: #59636e; --line: #d3d8dd; --faint: #eef0f2;
  --link: #0b5cad; --good: #1a6e36; --bad: #b3261e;
  --mono: ui-monospace, 'DejaVu Sans Mono', monospace;
}
@media screen and (prefers-color-scheme: dark) {
  :root {
    --paper: #15181b; --ink: #e2e5e8; --soft: #9aa4ae; --line: #3a4047; --faint: #22262a;
    --link: #7ab4f0; --good: #6fc28a; --bad: #f28b82;
  }
}
* { box-sizing: border-box; }
body {
  margin: 0 auto; max-width: 1320px; padding: 24px 32px 64px;
  background: var(--paper); color: var(--ink);
  font: 15px/1.5 system-ui, 'DejaVu Sans', sans-serif;
}
h1 { margin: 0; color: var(--soft); font-size: 15px; font-weight: 600; overflow-wrap: anywhere; }
h2 {
  margin: 40px 0 12px; padding-bottom: 4px; border-bottom: 1px solid var(--line);
  font-size: 18px; font-weight: 600;
}
h3 { margin: 20px 0 4px; font-size: 14px; font-weight: 600; }
p, ul { margin: 8px 0; max-width: 80ch; }
ul { padding-left: 20px; }
nav { margin: 16px 0 0; font-size: 13px; }
a { margin-right: 14px; color: var(--link); text-decoration: none; }
.verdict {
  margin: 12px 0; padding: 10px 16px; border-left: 4px solid; max-width: none;
  font: 600 20px/1.4 var(--mono); overflow-wrap: anywhere;
}
.yes { color: var(--good); }
.no { color: var(--bad); }
.note { color: var(--soft); font-size: 13px; }
.wide { overflow-x: auto; }
.tall { max-height: 92vh; overflow-y: auto; }
table { border-collapse: collapse; font-size: 13px; font-variant-numeric: tabular-nums; }
th, td { padding: 3px 18px 3px 0; text-align: left; vertical-align: top; }
th { white-space: nowrap; }
thead th { border-bottom: 1px solid var(--line); color: var(--soft); font-weight: 600; }
tbody th { font-weight: 500; }
#nodes td { white-space: nowrap; }
tbody tr { border-bottom: 1px solid var(--faint); }
pre { margin: 8px 0; padding: 8px 12px; background: var(--faint); font: 12px/1.5 var(--mono); overflow-x: auto; }
dl { margin: 0; }
dt { margin-top: 10px; color: var(--soft); font-size: 13px; }
dd { margin: 0; }
.matrix { font-size: 10px; }
.matrix th, .matrix td { min-width: 15px; padding: 1px; text-align: right; }
.matrix tbody th { position: sticky; left: 0; padding-right: 8px; background: var(--paper); text-align: left; }
.matrix thead th { position: sticky; top: 0; background: var(--paper); }
.matrix thead th:first-child { left: 0; z-index: 1; text-align: left; }
.matrix .sum, .matrix thead th:last-child { padding-left: 10px; font-weight: 600; }
.matrix .none { color: var(--bad); font-weight: 600; }
.matrix .same { color: var(--soft); background: var(--faint); }
svg { display: block; max-width: 100%; height: auto; }
@media screen and (max-width: 960px) { svg { max-width: none; } }
svg text { font: 12px var(--mono); fill: var(--ink); }
svg .soft { font-size: 11px; fill: var(--soft); }
svg .bad { font-weight: 700; fill: var(--bad); }
svg .border { stroke: var(--line); }
svg .lead { stroke: var(--faint); }
svg .link { stroke: var(--soft); stroke-width: 1.5; }
svg .bus { stroke: var(--link); stroke-width: 2; }
svg .port { fill: var(--paper); stroke: var(--link); stroke-width: 2; }
svg .bridge { fill: var(--ink); }
svg .endpoint { fill: none; stroke: var(--ink); stroke-width: 1.5; }
@media print {
  body { max-width: none; padding: 0; font-size: 11px; }
  nav { display: none; }
  table { font-size: 9px; }
  .matrix { font-size: 6px; }
  .matrix th, .matrix td { min-width: 0; padding: 0 1px; }
  h2, h3, dt { break-after: avoid; }
  tr, svg { break-inside: avoid; }
  .wide { max-height: none; overflow: visible; }
  .matrix tbody th, .matrix thead th { position: static; }
  pre { white-space: pre-wrap; overflow-wrap: anywhere; }
}
";
