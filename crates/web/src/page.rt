//! The page for people: one text, whatever the unit says. Its script asks for the state, and shows it.

/// The page. Who changes its style or its script changes their digests in the policy of `teller`, too, which `.ci/names` compares.
pub const PAGE_TEXT: &str = r##"<!doctype html>
<html lang="en">
<head>
<meta charset="utf-8">
<meta name="viewport" content="width=device-width, initial-scale=1">
<title>sfu</title>
<style>
:root {
  color-scheme: light dark;
  --paper: #f6f8fa; --card: #fff; --ink: #1b2733; --soft: #51606e; --line: #d5dce3;
  --in: #0b62a8; --out: #a8430f; --on: #0b6e3b; --off: #8a4b00; --bad: #b3261e;
}
@media (prefers-color-scheme: dark) {
  :root {
    --paper: #0b0f14; --card: #10161d; --ink: #e6edf3; --soft: #9fb0c0; --line: #2b3540;
    --in: #5cb8f0; --out: #ff9a5c; --on: #6fd79b; --off: #f0b069; --bad: #ff8f85;
  }
}
* { box-sizing: border-box; }
body {
  margin: 0 auto; max-width: 110rem; padding: 1rem; background: var(--paper); color: var(--ink);
  font: 1rem/1.45 system-ui, 'Segoe UI', Helvetica, Arial, sans-serif; font-variant-numeric: tabular-nums;
}
h1, h2, p, dl, dd, figure { margin: 0; }
h1 { font-size: 1.35rem; }
h2 { font-size: 1.05rem; margin-bottom: .6rem; }
a { color: var(--in); }
:focus-visible { outline: 2px solid var(--in); outline-offset: 2px; }
header { display: flex; flex-wrap: wrap; align-items: center; gap: .3rem 1rem; margin-bottom: 1rem; }
#when { margin-left: auto; color: var(--soft); }
#news:empty { display: none; }
button {
  font: inherit; color: inherit; background: var(--card); border: 1px solid var(--line);
  border-radius: .4rem; padding: .15rem .8rem; cursor: pointer;
}
#news::before { content: ''; display: inline-block; width: .6rem; height: .6rem; border-radius: 50%; margin-right: .5rem; background: var(--soft); }
#news.on::before { background: var(--on); }
#news.bad { color: var(--bad); font-weight: 600; }
#news.bad::before { background: var(--bad); }
.soft, dt, figcaption, footer, th { color: var(--soft); }
.old { opacity: .6; }
main, .pair { display: grid; gap: 1rem; }
main > *, .pair > * { min-width: 0; }
main[hidden], section[hidden] { display: none; }
section { background: var(--card); border: 1px solid var(--line); border-radius: .6rem; padding: .8rem 1rem 1rem; }
dl { display: grid; grid-template-columns: repeat(auto-fit, minmax(6.8rem, 1fr)); gap: .7rem .9rem; align-items: end; }
dt { font-size: .85rem; }
dd { font-size: 1.1rem; white-space: nowrap; }
dl .minute { grid-column: span 2; }
.in { color: var(--in); }
.out { color: var(--out); }
.on { color: var(--on); }
.off { color: var(--off); }
.curve { display: block; width: 10rem; height: 1.5rem; overflow: visible; border-bottom: 1px solid var(--line); }
.curve polyline { fill: none; stroke: currentcolor; stroke-width: 1.5; stroke-linejoin: round; vector-effect: non-scaling-stroke; }
.curve .in { stroke-width: 4; stroke-opacity: .5; }
.minute .curve { width: 100%; height: 1.75rem; }
.wide { overflow-x: auto; }
table { border-collapse: collapse; min-width: 100%; }
th, td { padding: .3rem .7rem; text-align: right; white-space: nowrap; border-bottom: 1px solid var(--line); font-weight: inherit; }
thead th { font-size: .85rem; vertical-align: bottom; }
tbody tr:last-child > * { border-bottom: 0; }
.word { text-align: left; }
th:first-child, td:first-child { position: sticky; left: 0; background: var(--card); text-align: left; padding-left: 0; }
#matrix { min-width: 0; }
#matrix th, #matrix td { padding: .3rem .5rem; text-align: center; }
#matrix th:first-child { text-align: left; padding-left: 0; }
.called, #matrix th { max-width: 20rem; overflow: hidden; text-overflow: ellipsis; }
.mark { display: inline-block; width: .75rem; height: .75rem; border: 2px solid currentcolor; border-radius: 50%; vertical-align: -.05rem; forced-color-adjust: none; }
.mark.on { background: currentcolor; }
#matrix, #gallery { margin-top: .6rem; }
#trouble { border-color: var(--bad); }
#trouble h2 { color: var(--bad); }
#troubles { margin: 0; padding-left: 1.2rem; overflow-wrap: anywhere; }
#gallery { display: grid; grid-template-columns: repeat(auto-fill, minmax(min(24rem, 100%), 1fr)); gap: .8rem; }
#gallery a { display: block; border: 1px solid var(--line); border-radius: .4rem; overflow: hidden; }
#gallery img { display: block; width: 100%; height: auto; }
figcaption { padding-top: .2rem; }
figcaption, footer { font-size: .9rem; }
footer { margin-top: 1rem; }
@media (min-width: 75rem) {
  .pair { grid-template-columns: fit-content(45%) minmax(0, 1fr); align-items: start; }
}
@media (max-width: 48rem) {
  body { padding: .6rem; }
  section { padding: .7rem .8rem .8rem; }
  dl { grid-template-columns: 1fr 1fr; }
  .cards, .cards tbody { display: block; }
  .cards thead { position: absolute; width: 1px; height: 1px; overflow: hidden; clip-path: inset(50%); }
  .cards tr { display: grid; grid: auto-flow dense / 1fr 1fr; gap: .1rem 1.4rem; padding: .6rem 0; border-bottom: 1px solid var(--line); }
  .cards tr:first-child { padding-top: 0; }
  .cards tr:last-child { padding-bottom: 0; border-bottom: 0; }
  .cards td { display: flex; justify-content: space-between; align-items: baseline; gap: .6rem; padding: 0; border: 0; min-width: 0; }
  .cards td::before { content: attr(data-name); flex: none; color: var(--soft); font-size: .85rem; white-space: nowrap; }
  .cards td:first-child { position: static; justify-content: flex-start; font-weight: 600; }
  .cards td:first-child::before { color: inherit; font-size: inherit; }
  .cards .whole { grid-column: 1 / -1; }
  .cards .called { grid-column: 1 / -1; max-width: none; white-space: normal; overflow-wrap: anywhere; }
  .cards .curve { flex: 1; max-width: 68%; }
  #matrix th { max-width: 8rem; white-space: normal; overflow-wrap: anywhere; }
}
</style>
</head>
<body>
<header>
<h1>sfu</h1>
<p id="news" role="status"></p>
<p id="when"></p>
<button id="pause" type="button" aria-pressed="false" hidden>Pause</button>
</header>
<noscript><p>This page needs its script. The same stands in <a href="/state.json">/state.json</a> for programs and, as counts, in
<a href="/metrics">/metrics</a> for Prometheus. <a href="/why">/why</a> says where nothing comes.</p></noscript>
<main id="main" hidden>
<section id="trouble" aria-labelledby="why" hidden><h2 id="why">Where nothing comes</h2><ul id="troubles"></ul></section>
<section aria-labelledby="all"><h2 id="all">In all</h2><dl id="totals"></dl></section>
<section aria-labelledby="who"><h2 id="who">Who is there</h2>
<div class="wide" role="region" aria-labelledby="who" tabindex="0"><table class="cards" id="endpoints"></table></div></section>
<div class="pair">
<section aria-labelledby="sees"><h2 id="sees">Who sees whom</h2>
<p class="soft">A row for each receiver, a column for each sender:<br><span class="mark on"></span> sent on, <span class="mark off"></span> switched off.</p>
<div class="wide" role="region" aria-labelledby="sees" tabindex="0"><table id="matrix"></table></div></section>
<section aria-labelledby="asked"><h2 id="asked">What publishers are asked for</h2>
<p class="soft">The rates that subscribers request (TMMBR), and the set that is announced (TMMBN).</p>
<div id="gallery"></div></section>
</div>
<section aria-labelledby="sent"><h2 id="sent">What goes out on each leg</h2>
<div class="wide" role="region" aria-labelledby="sent" tabindex="0"><table class="cards" id="legs"></table></div></section>
</main>
<footer>The same: <a href="/state.json">/state.json</a> for programs, <a href="/metrics">/metrics</a> for Prometheus, <a href="/why">/why</a> for
each leg. Curves begin when the page is
opened, and show a minute.</footer>
<script>
'use strict';
const EACH_MS = 2000, PAUSE_MS = 8000, PATIENCE_MS = 5000, MINUTE_MS = 60000;
const NONE = '\u2013';
const SVG = 'http://www.w3.org/2000/svg';
// Said, since a narrow page lays tables out as cards, and browsers forget then what they are.
const ROLES = { table: 'table', thead: 'rowgroup', tbody: 'rowgroup', tr: 'row', th: 'columnheader', td: 'cell' };

const at = id => document.getElementById(id);
// All that is shown is set as text, and never read as markup.
const say = (it, text) => { if (it.textContent !== text) it.textContent = text; };
const make = (parent, tag, kind = '', text = '') => {
  const it = document.createElement(tag);
  it.className = kind;
  it.textContent = text;
  if (ROLES[tag]) it.setAttribute('role', ROLES[tag]);
  parent.append(it);
  return it;
};

// How numbers are said.
const known = (it, said) => it === null || it === undefined ? NONE : said(it);
const count = it => known(it, n => n.toLocaleString('en'));
const plain = it => known(it, String);
// What an endpoint is called, and its number if that is something else.
const titled = (name, number) => (name ?? String(number)) === String(number) ? plain(number) : `${name} (${number})`;
const scaled = n => n < 1e3 ? [Math.floor(n), ''] : n < 1e6 ? [(n / 1e3).toFixed(1), 'k']
  : n < 1e9 ? [(n / 1e6).toFixed(1), 'M'] : [(n / 1e9).toFixed(1), 'G'];
const rate = it => known(it, n => scaled(n).join('\u00a0') + 'bit/s');
const bytes = it => known(it, n => scaled(n).join('\u00a0') + 'B');
const share = it => known(it, n => (100 * n / 256).toFixed(1) + '\u00a0%');
const trip = it => known(it, n => n.toLocaleString('en') + '\u00a0ms');
const ago = ms => ms < 10e3 ? (ms / 1e3).toFixed(1) + ' s ago' : ms < 60e3 ? Math.floor(ms / 1e3) + ' s ago'
  : ms < 3600e3 ? Math.floor(ms / 60e3) + ' min ago' : Math.floor(ms / 3600e3) + ' h ago';

// What moved in the last minute: of each endpoint, by its number, and of all together.
let before = null;
const moved = new Map();
const push = (whose, rates) => moved.set(whose, [...moved.get(whose) || [], rates].filter(it => rates.at - it.at <= MINUTE_MS));
const takeIn = state => {
  const moment = state.moment_ms, elapsed = before ? moment - before.moment_ms : 0;
  if (before && elapsed === 0) return false;
  const was = new Map(before ? before.endpoints.map(it => [it.number, it]) : []);
  // A count that falls, or time that does: the unit, or who asks it, began anew.
  const fell = elapsed < 0 || state.endpoints.some(it => was.has(it.number)
    && (it.heard_octets < was.get(it.number).heard_octets || it.sent_octets < was.get(it.number).sent_octets));
  before = state;
  if (fell || elapsed === 0) {
    moved.clear();
    return true;
  }
  const all = { at: moment, heard: 0, sent: 0 };
  for (const it of state.endpoints) {
    const old = was.get(it.number);
    if (!old) continue;
    const heard = 8000 * (it.heard_octets - old.heard_octets) / elapsed, sent = 8000 * (it.sent_octets - old.sent_octets) / elapsed;
    all.heard += heard;
    all.sent += sent;
    push(it.number, { at: moment, heard, sent });
  }
  push('all', all);
  return true;
};
const latest = (whose, way) => {
  const all = moved.get(whose);
  return all ? all[all.length - 1][way] : null;
};

// Both ways of a minute, on one scale.
const curve = parent => {
  const svg = document.createElementNS(SVG, 'svg');
  for (const [name, value] of [['class', 'curve'], ['viewBox', '0 0 600 100'], ['preserveAspectRatio', 'none'], ['aria-hidden', 'true']]) svg.setAttribute(name, value);
  for (const way of ['in', 'out']) svg.appendChild(document.createElementNS(SVG, 'polyline')).setAttribute('class', way);
  parent.append(svg);
  return svg;
};
const draw = (svg, whose, moment) => {
  const all = moved.get(whose) || [];
  const highest = Math.max(1, ...all.map(it => Math.max(it.heard, it.sent)));
  const points = way => all.map(it => `${(600 - (moment - it.at) / 100).toFixed(1)},${(100 - 100 * it[way] / highest).toFixed(1)}`).join(' ');
  svg.children[0].setAttribute('points', points('heard'));
  svg.children[1].setAttribute('points', points('sent'));
};

// A table: its columns are [name, class, what of a row is shown], with `curve` for a curve. Rows stay as long as they are of the same things.
const table = (it, columns, key) => {
  const head = make(make(it, 'thead'), 'tr');
  for (const [name, kind] of columns) make(head, 'th', kind, name);
  const body = make(it, 'tbody');
  let shown = '';
  return (rows, moment) => {
    const wanted = rows.map(row => row[key]).join(' ');
    if (shown !== wanted) {
      shown = wanted;
      body.replaceChildren();
      for (const _ of rows) {
        const line = make(body, 'tr');
        for (const [name, kind, what] of columns) {
          const cell = make(line, 'td', kind);
          cell.dataset.name = name;
          if (what === columns[0][2]) cell.setAttribute('role', 'rowheader');
          if (what === curve) curve(cell);
        }
      }
    }
    rows.forEach((row, number) => columns.forEach(([, kind, what], place) => {
      const cell = body.children[number].children[place];
      if (what === curve) return draw(cell.firstElementChild, row[key], moment);
      const [text, more] = [what(row)].flat();
      say(cell, text);
      cell.className = more ? `${kind} ${more}` : kind;
    }));
  };
};
const showEndpoints = table(at('endpoints'), [
  ['endpoint', 'called', it => titled(it.name, it.number)],
  ['state', 'word', it => it.present ? ['present', 'on'] : ['absent', 'off']],
  ['in', 'in', it => rate(latest(it.number, 'heard'))],
  ['out', 'out', it => rate(latest(it.number, 'sent'))],
  ['last minute', 'word whole', curve],
  ['loss', '', it => share(it.fraction_lost)],
  ['jitter', '', it => count(it.jitter)],
  ['reported', '', it => known(it.reported_ago_ms, ago)],
  ['last heard', '', it => it.heard_ago_ms === null ? 'never' : ago(it.heard_ago_ms)],
  ['refused', '', it => count(it.refused)],
  ['SSRC', 'whole', it => plain(it.ssrc)],
  ['address', 'word whole', it => plain(it.address)],
], 'number');
const showLegs = table(at('legs'), [
  ['leg', '', it => plain(it.leg)],
  ['state', 'word', it => it.on ? ['on', 'on'] : ['off', 'off']],
  ['from', 'word called', it => titled(it.publisher_name, it.publisher)],
  ['to', 'word called', it => titled(it.subscriber_name, it.subscriber)],
  ['packets', '', it => count(it.packets)],
  ['payload', '', it => bytes(it.octets)],
  ['resent', '', it => count(it.resent)],
  ['missed', '', it => count(it.missed)],
  ['next number', '', it => plain(it.next)],
  ['loss', '', it => share(it.fraction_lost)],
  ['jitter', '', it => count(it.jitter)],
  ['round trip', '', it => trip(it.round_trip_ms)],
  ['reported', '', it => known(it.reported_ago_ms, ago)],
], 'leg');

const TOTALS = [
  ['in', 'in', () => rate(latest('all', 'heard'))],
  ['out', 'out', () => rate(latest('all', 'sent'))],
  ['last minute', 'minute', curve],
  ['endpoints present', '', it => `${count(it.counts.present)} of ${count(it.endpoints.length)}`],
  ['datagrams in', '', it => count(it.counts.heard)],
  ['datagrams out', '', it => count(it.counts.sent)],
  ['sends that failed', '', it => count(it.counts.failed)],
  ['jobs lost', '', it => count(it.counts.lost)],
  ['jobs given up', '', it => count(it.counts.dropped)],
  ['from unknown senders', '', it => count(it.counts.strangers)],
  ['dropped by the system', '', it => count(it.counts.unread)],
];
const figures = TOTALS.map(([name, kind, what]) => {
  const box = make(at('totals'), 'div', kind === 'minute' ? kind : '');
  make(box, 'dt', '', name);
  const figure = make(box, 'dd', kind);
  return what === curve ? curve(figure) : figure;
});
const showTotals = state => TOTALS.forEach(([, , what], place) => {
  if (what === curve) draw(figures[place], 'all', state.moment_ms);
  else say(figures[place], what(state));
});

// Who sees whom: those who receive, by those who send.
let pairs = '';
const showMatrix = (state, senders, titles) => {
  const wanted = [...titles.values(), ...state.legs.map(it => `${it.publisher} ${it.subscriber} ${it.on}`)].join();
  if (pairs === wanted) return;
  pairs = wanted;
  const receivers = state.endpoints.map(it => it.number).filter(n => state.legs.some(it => it.subscriber === n));
  const states = new Map(state.legs.map(it => [`${it.publisher} ${it.subscriber}`, it.on ? 'on' : 'off']));
  at('matrix').replaceChildren();
  const head = make(make(at('matrix'), 'thead'), 'tr');
  make(head, 'th', '', 'receiver');
  for (const sender of senders) make(head, 'th', '', titles.get(sender)).title = titles.get(sender);
  const body = make(at('matrix'), 'tbody');
  for (const receiver of receivers) {
    const line = make(body, 'tr');
    make(line, 'th', '', titles.get(receiver)).setAttribute('role', 'rowheader');
    for (const sender of senders) {
      const cell = make(line, 'td'), seen = states.get(`${sender} ${receiver}`);
      if (!seen) continue;
      const mark = make(cell, 'span', `mark ${seen}`);
      mark.setAttribute('role', 'img');
      mark.setAttribute('aria-label', seen);
      mark.title = `from ${titles.get(sender)} to ${titles.get(receiver)}: ${seen}`;
    }
  }
};

// The set of each publisher. A picture takes the place of the one before once it is there.
let drawing = false;
const showGallery = async (senders, titles, moment) => {
  const gallery = at('gallery'), wanted = senders.map(it => titles.get(it)).join(' ');
  if (gallery.dataset.senders !== wanted) {
    gallery.dataset.senders = wanted;
    gallery.replaceChildren();
    for (const sender of senders) {
      const figure = make(gallery, 'figure');
      make(figure, 'a').href = `/publishers/${encodeURIComponent(sender)}.svg`;
      make(figure, 'figcaption', '', `endpoint ${titles.get(sender)}`);
    }
  }
  if (drawing || document.hidden) return;
  drawing = true;
  for (const link of gallery.querySelectorAll('a')) {
    const image = new Image(1060, 580);
    image.alt = `The rates that are asked of, and announced to, ${link.nextSibling.textContent}`;
    image.src = `${link.getAttribute('href')}?${encodeURIComponent(moment)}`;
    try {
      await image.decode();
      link.replaceChildren(image);
    } catch {
      if (!link.firstElementChild) say(link, 'no picture');
    }
  }
  drawing = false;
};

// The lines of legs on which nothing is sent, as many as are soon read.
const TROUBLE = /^leg \d+ from \S+ to \S+: (?!sent;)/, MOST = 20;
const showTroubles = text => {
  const lines = text.split('\n').filter(it => TROUBLE.test(it));
  const more = lines.length - MOST, list = at('troubles');
  if (more > 0) lines.splice(MOST, more, `and ${count(more)} more`);
  while (list.children.length > lines.length) list.lastElementChild.remove();
  while (list.children.length < lines.length) make(list, 'li');
  lines.forEach((line, place) => say(list.children[place], line));
  at('trouble').hidden = lines.length === 0;
};

const show = state => {
  if (!takeIn(state)) return;
  const senders = state.endpoints.map(it => it.number).filter(n => state.legs.some(it => it.publisher === n));
  const titles = new Map(state.endpoints.map(it => [it.number, titled(it.name, it.number)]));
  showTotals(state);
  showEndpoints(state.endpoints, state.moment_ms);
  showLegs(state.legs, state.moment_ms);
  for (const id of ['matrix', 'gallery', 'legs']) at(id).closest('section').hidden = state.legs.length === 0;
  showMatrix(state, senders, titles);
  showGallery(senders, titles, state.moment_ms);
  at('main').hidden = false;
  document.title = `sfu: ${count(state.counts.present)} present`;
};

const tell = (text, kind) => {
  const old = kind === 'bad' && !at('main').hidden;
  say(at('news'), old ? `${text}. What is below is old` : text);
  at('news').className = kind;
  at('main').className = kind === 'bad' ? 'old' : '';
  if (kind === 'bad') document.title = 'sfu: no answer';
};
let paused = false;
// Whether the state is there, and shown.
const ask = async () => {
  let answer;
  try {
    answer = await fetch('/state.json', { signal: AbortSignal.timeout(PATIENCE_MS) });
    if (paused) return true;
    if (answer.status === 503) tell('The unit does not answer', 'bad');
    else if (!answer.ok) tell(`The answer has status ${answer.status}`, 'bad');
    else {
      show(await answer.json());
      const why = await fetch('/why', { signal: AbortSignal.timeout(PATIENCE_MS) });
      showTroubles(why.ok ? await why.text() : '');
      say(at('when'), `last answer ${new Date().toLocaleTimeString()}`);
      tell('The unit answers', 'on');
      return true;
    }
  } catch (error) {
    tell(answer ? 'The answer can not be read' : 'The program sfu page does not answer', 'bad');
  }
  return false;
};

// After each state that isn't there the next one is read later.
let pause = EACH_MS;
const turn = async () => {
  if (!paused) pause = await ask() ? EACH_MS : Math.min(2 * pause, PAUSE_MS);
  setTimeout(turn, pause);
};
at('pause').hidden = false;
at('pause').addEventListener('click', () => {
  paused = !paused;
  at('pause').setAttribute('aria-pressed', String(paused));
  tell(paused ? 'Paused' : 'Asking the unit', '');
});
tell('Asking the unit', '');
turn();
</script>
</body>
</html>
"##;
