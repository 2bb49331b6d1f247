//! The page.

/// `/`, as HTML.
pub const PAGE: &str = r##"<!doctype html>
<html lang="en">
<head>
<meta charset="utf-8">
<meta name="viewport" content="width=device-width, initial-scale=1">
<meta name="color-scheme" content="light dark">
<title>pdc watch</title>
<link rel="icon" href="data:,">
<link rel="stylesheet" href="watch.css">
<script src="watch.js" defer></script>
</head>
<body>
<header>
  <h1>pdc watch</h1>
  <p id="agreement" role="status" data-instants="0" data-equal="0" data-different="0">No instant that both nodes published yet</p>
  <p><time id="clock">no data yet</time></p>
</header>
<main>
  <section id="pair" aria-label="The pair">
    <div id="sources" class="box"><h2>PMUs</h2><ul id="pmus"></ul></div>
    <svg class="flow" aria-hidden="true" viewBox="0 0 20 40" preserveAspectRatio="none"><path d="M1 20 10 8H19M1 20 10 32H19"/></svg>
    <div id="nodes">
      <article id="box-A" class="box" data-state="unknown"></article>
      <article id="box-B" class="box" data-state="unknown"></article>
    </div>
    <svg class="flow" aria-hidden="true" viewBox="0 0 20 40" preserveAspectRatio="none"><path d="M1 8H10L19 20M1 32H10L19 20"/></svg>
    <article id="box-M" class="box" data-state="unknown"></article>
    <svg class="flow" aria-hidden="true" viewBox="0 0 20 40" preserveAspectRatio="none"><path d="M1 20H17M12 15 18 20 12 25"/></svg>
    <div id="out" class="box"><h2>Stream out</h2><p id="rate"></p><p id="outstate"></p></div>
  </section>
  <section id="presence" aria-labelledby="presence-title">
    <h2 id="presence-title">Whose data came, tenth by tenth of a second</h2>
    <svg id="matrix" tabindex="0" role="img" aria-label="A row for each PMU on each stream. The arrow keys move the cell that is told of."></svg>
    <p class="keys"><i class="whole"></i>whole <i class="gaps"></i>with gaps <i class="absent"></i>absent <i class="flag"></i>STAT not 0
    <output id="told">Point at a cell, or use the arrow keys.</output></p>
  </section>
  <section id="phasors" aria-labelledby="phasors-title">
    <h2 id="phasors-title">Phasors</h2>
    <p><label>PMU <select id="chosen"></select></label> <label>angles against <select id="reference"></select></label> <strong id="doubt"></strong></p>
    <div id="polar"><svg id="circle" viewBox="-128 -108 256 216" role="img" aria-label="Polar diagram; the table has its values"></svg>
    <table><thead><tr><th>phasor</th><th>magnitude</th><th>angle</th></tr></thead><tbody id="values"></tbody></table></div>
  </section>
  <section id="strips" aria-labelledby="strips-title">
    <h2 id="strips-title">Frequency and ROCOF, in the last 60 seconds</h2>
    <svg id="frequency" viewBox="0 0 600 130" role="img" aria-label="Frequency of all PMUs in hertz"></svg>
    <svg id="rocof" viewBox="0 0 600 130" role="img" aria-label="ROCOF of all PMUs in hertz a second"></svg>
    <p id="legend"></p>
  </section>
</main>
</body>
</html>
"##;
