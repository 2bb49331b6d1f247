//! Its style.

/// `/watch.css`.
pub const STYLE: &str = r##":root {
  --back: #f6f7f9; --face: #fff; --text: #16202b; --soft: #566472; --line: #cfd6dd;
  --good: #17803d; --bad: #c4261d; --warn: #c98a00; --none: #d4dae0; --badface: #fdeceb;
  font: 14px/1.35 system-ui, sans-serif;
}
@media (prefers-color-scheme: dark) {
  :root {
    --back: #11161c; --face: #1a222b; --text: #e6ebf0; --soft: #9aa8b5; --line: #35414d;
    --good: #3fb968; --bad: #ff6b60; --warn: #e5ae32; --none: #3a4651; --badface: #3a1d1d;
  }
}
* { box-sizing: border-box; }
body { margin: 0; background: var(--back); color: var(--text); font-variant-numeric: tabular-nums; }
header { display: flex; gap: .2rem 1.5rem; align-items: baseline; flex-wrap: wrap; padding: .4rem 1rem; }
header p { margin: 0; }
h1 { font-size: 1.15rem; margin: 0; }
small { font-weight: 400; color: var(--soft); margin-left: .3rem; }
h2 { font-size: .95rem; margin: 0 0 .3rem; }
#agreement { flex: 1; font-weight: 600; }
#agreement[data-state="equal"] { color: var(--good); }
#agreement[data-state="different"] { color: var(--bad); }
#clock { color: var(--soft); }
main { display: grid; gap: .6rem; padding: 0 1rem 1rem; grid-template-columns: minmax(0, 1fr); }
section, .box { background: var(--face); border: 1px solid var(--line); border-radius: .4rem; padding: .45rem .6rem; }
#pair { display: grid; gap: .3rem; align-items: stretch; background: none; border: 0; padding: 0; }
#nodes { display: grid; gap: .4rem; }
.box { border-left: .35rem solid var(--line); }
.box[data-state="alive"] { border-left-color: var(--good); }
.box[data-state="dead"] { border-color: var(--bad); background: var(--badface); }
.box h2 { display: flex; justify-content: space-between; gap: .5rem; }
.box[data-state="alive"] .state { color: var(--good); }
.box[data-state="dead"] .state { color: var(--bad); }
.box p, .box ul { margin: 0; padding: 0; list-style: none; }
#pmus { display: grid; grid-template-columns: repeat(auto-fill, minmax(8.5rem, 1fr)); gap: 0 .6rem; }
.late { color: var(--bad); }
#doubt { color: var(--bad); }
.box[data-state="dead"] dl, .box[data-state="dead"] .delays, .box[data-state="dead"] .published, .box[data-state="dead"] .shares, #polar[data-state="old"], #polar[data-state="unusable"],
body[data-state="lost"] main { opacity: .55; }
#polar[data-state="unusable"] tbody td + td { text-decoration: line-through; }
dl { display: grid; grid-template-columns: auto 1fr auto 1fr; gap: 0 .5rem; margin: 0; font-size: .85rem; }
dt { color: var(--soft); }
dd { margin: 0; white-space: nowrap; }
.box .delays { display: flex; flex-wrap: wrap; gap: 0 .6rem; align-items: center; font-size: .85rem; color: var(--soft); }
.box .published, .box .absences, .box .shares, .box .wait { font-size: .85rem; color: var(--soft); }
.delays svg { flex: 1; min-width: 5rem; height: .35rem; }
.track { fill: var(--none); }
.most { fill: var(--warn); }
.median { fill: var(--good); }
.flow { display: none; }
.flow path { fill: none; stroke: var(--soft); stroke-width: 1.5; vector-effect: non-scaling-stroke; }
#matrix { width: 100%; display: block; }
text { fill: var(--text); font-size: 10px; }
text.soft, .keys, #legend { fill: var(--soft); color: var(--soft); }
.whole { fill: var(--good); background: var(--good); }
.gaps { fill: var(--warn); background: var(--warn); }
.absent { fill: var(--bad); background: var(--bad); }
.notdue { fill: var(--none); }
.flag { fill: var(--text); background: var(--text); }
.cursor { fill: none; stroke: var(--text); stroke-width: 1.5; }
.keys { margin: .3rem 0 0; font-size: .85rem; }
.keys i { display: inline-block; width: .7rem; height: .7rem; margin: 0 .25rem 0 .6rem; }
.keys .flag { height: .2rem; vertical-align: middle; }
output { display: block; min-height: 1.3em; color: var(--text); }
#phasors p { margin: 0 0 .3rem; }
select { font: inherit; color: inherit; background: var(--face); border: 1px solid var(--line); border-radius: .25rem; max-width: 11rem; }
:focus-visible { outline: 2px solid var(--good); outline-offset: 1px; }
#polar { display: flex; flex-wrap: wrap; gap: .6rem; align-items: flex-start; }
#circle { width: 245px; flex: none; }
table { border-collapse: collapse; font-size: .85rem; }
th, td { text-align: right; padding: .05rem .5rem; }
th { color: var(--soft); font-weight: 500; }
th:first-child, td:first-child { text-align: left; }
.axis { fill: none; stroke: var(--line); }
.trace { fill: none; stroke-width: 1.2; }
.trace.chosen { stroke-width: 2.6; }
#strips svg { width: 100%; display: block; }
#legend { margin: .2rem 0 0; font-size: .85rem; display: flex; flex-wrap: wrap; gap: 0 .8rem; }
#legend i { display: inline-block; width: 1rem; height: .2rem; margin-right: .3rem; vertical-align: middle; }
@media (max-width: 700px) {
  #strips text { font-size: 17px; }
  #agreement { flex-basis: 100%; order: 3; }
  dt { white-space: nowrap; }
  dl { grid-template-columns: auto 1fr; }
}
@media (min-width: 760px) {
  #pair { grid-template-columns: minmax(9.5rem, 1fr) 1.3rem 2.4fr 1.3rem 2fr 1.3rem minmax(7.5rem, .7fr); }
  .flow { display: block; width: 100%; height: 100%; }
}
@media (min-width: 1100px) {
  main { grid-template-columns: minmax(0, 1.15fr) minmax(0, 1fr); }
  #pair { grid-column: 1 / -1; }
  #strips { grid-column: 1 / -1; display: grid; grid-template-columns: 1fr 1fr; gap: 0 1rem; }
  #strips h2, #legend { grid-column: 1 / -1; }
}
"##;
