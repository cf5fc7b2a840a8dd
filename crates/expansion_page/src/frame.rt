//! What is the same on every page.
ghost use Rattle.expansion_page.specs.Pages.{IsFrame};

use html_code::page::Frame;

// The page's policy lets it load nothing, and apply and run no style and no script but those of
// these hashes.
const HEAD: &str = r##"<!doctype html>
<html lang=en dir=ltr>
<meta charset=utf-8>
<meta name=viewport content="width=device-width">
<meta name=generator content=Filgordd>
<meta http-equiv=Content-Security-Policy content="default-src 'none'; base-uri 'none';
 form-action 'none'; style-src 'sha256-IDgNc+g3wUVN3DYnNQ3hfTLJCVIafG72YNjWr96E3uw=';
 script-src 'sha256-TDAnLF0LmECxhWFZTKTCHPzfGphKR9gIF1W8JSUwbiY='">
<title>"##;

const HEADING: &str = r##": expansion</title>
<style>
:root { color-scheme: light dark; --page: #fff; --text: #1c2128; --dim: #5b6570; --line: #d5dae0;
  --head: #f4f6f8; --fault: #c4241c; --mark: #ffdf5d; --other: #9fd4ff; --on: #111;
  --k0: #e3eefd; --k1: #e1f4e5; --k2: #fdf0d3; --k3: #f4e4f8; }
@media (prefers-color-scheme: dark) { :root { --page: #15191e; --text: #dde3ea; --dim: #929daa;
  --line: #333b45; --head: #1d232a; --fault: #ff7b72; --mark: #e3b341; --other: #58a6ff;
  --k0: #1c2f49; --k1: #193527; --k2: #3b3018; --k3: #38233f; } }
* { box-sizing: border-box; }
body { margin: 0; height: 100vh; display: grid; background: var(--page); color: var(--text);
  grid-template: auto minmax(0, 1fr) auto / minmax(0, 1fr) minmax(0, 1fr) auto;
  font: 15px/1.5 system-ui, sans-serif; }
header, nav { grid-column: 1 / -1; padding: .5em 1rem; background: var(--head); }
header { display: flex; flex-wrap: wrap; gap: .1em 1.2em; align-items: baseline;
  border-bottom: 1px solid var(--line); }
h1, h2, h3, p { margin: 0; }
h1 { font-size: 1.05rem; overflow-wrap: anywhere; }
header p, h2, h3 { color: var(--dim); font-size: .85rem; }
section, aside { overflow: auto; outline: 0; }
section + section, aside { border-left: 1px solid var(--line); }
h2 { position: sticky; top: 0; z-index: 1; padding: .35em 1.5rem; font-weight: 600;
  background: var(--page); border-bottom: 1px solid var(--line); }
section:focus-visible h2 { color: var(--text); box-shadow: inset 3px 0 var(--other); }
button { font: inherit; color: inherit; background: none; cursor: pointer; padding: .1em .6em;
  border: 1px solid var(--line); border-radius: 4px; }
button[aria-pressed=true] { color: var(--text); border-color: var(--other); }
#tabs button:is([data-tab=s], [data-tab=e]), #tabs [hidden] { display: none; }
aside { display: none; grid-row: 2; grid-column: 3; width: 17rem; font-size: .85rem; outline: 0; }
.listed #l, .stepped #p { display: block; }
#p { width: 34rem; max-width: 45vw; }
#p:focus-visible h2 { color: var(--text); box-shadow: inset 3px 0 var(--other); }
#p p { padding: .4em 1.5rem; color: var(--dim); }
#p pre { margin: 0; white-space: pre-wrap; overflow-wrap: anywhere;
  font: 12px/1.5 ui-monospace, Menlo, "DejaVu Sans Mono", monospace; }
#p div { padding: .3em 1.5rem; }
#p .m { background: var(--head); box-shadow: inset 3px 0 var(--other); }
aside h3 { padding: .7em 1.5rem .2em; font-weight: 600; }
aside ul { margin: 0; padding: 0; list-style: none; }
aside li { padding: .1em 1.2rem .1em 1.5rem; overflow-wrap: anywhere; }
aside a { color: inherit; font-family: ui-monospace, Menlo, "DejaVu Sans Mono", monospace; }
aside span { color: var(--dim); }
aside .f { text-decoration: none; color: var(--fault); }
.t { padding: .7em 0 2em; white-space: pre-wrap; overflow-wrap: anywhere; tab-size: 4;
  font: 13px/1.6 ui-monospace, Menlo, "DejaVu Sans Mono", monospace; }
.t > * { padding: 0 1.5rem; }
#s .t > * { position: relative; padding-left: 4.2rem; }
.n { position: absolute; left: 0; width: 3.4rem; text-align: right; color: var(--dim);
  user-select: none; }
.n::before { content: attr(data-n); }
/* What is far from the window is not laid out. */
.t div, details { content-visibility: auto; contain-intrinsic-size: auto 30em; }
details { contain-intrinsic-size: auto 10em; }
/* A token does not change the order of what is beside it. */
bdi { unicode-bidi: isolate; }
.t bdi { direction: ltr; }
i, bdi { font-style: inherit; border-radius: 3px; }
.c { color: var(--dim); }
.f { text-decoration: underline wavy var(--fault); text-underline-offset: 3px; }
[data-k="0"] { background: var(--k0); }
[data-k="1"] { background: var(--k1); }
[data-k="2"] { background: var(--k2); }
[data-k="3"] { background: var(--k3); }
bdi:target, .t .m { background: var(--mark); color: var(--on); }
.t .o { background: var(--other); color: var(--on); }
summary { list-style: none; position: relative; }
summary::-webkit-details-marker { display: none; }
summary:not(:only-child) { cursor: pointer; }
summary:not(:only-child)::before { content: "\25be"; position: absolute; left: -1rem;
  color: var(--dim); }
details:not([open]) > summary:not(:only-child)::before { content: "\25b8"; }
details:not([open]) > summary:not(:only-child)::after { content: " \2026"; color: var(--dim); }
details:not([open]):has(.m, .o) > summary { box-shadow: -3px 0 var(--other); }
nav { border-top: 1px solid var(--line); max-height: 30vh; overflow: auto; }
nav:not(:has(li)) { display: none; }
nav ul { margin: 0; padding: 0; list-style: none; }
nav a { color: inherit; text-decoration-color: var(--fault); }
nav a::before { content: "\25cf"; padding-right: .5em; color: var(--fault); }
@media (max-width: 48em) { body:not([data-tab]) { display: block; height: auto; }
  section + section, aside { border-left: 0; }
  body:not([data-tab]) section + section { border-top: 1px solid var(--line); }
  body[data-tab] { grid-template-columns: minmax(0, 1fr); }
  body[data-tab] > section, body[data-tab] > aside { display: none; grid-row: 2;
    grid-column: 1; width: auto; }
  [data-tab=s] > #s, [data-tab=e] > #e, [data-tab=l] > #l,
  [data-tab=p] > #p { display: block !important; }
  body[data-tab] h2 { display: none; } #p { width: auto; max-width: none; }
  #tabs button:not([hidden]) { display: inline; }
  #s .t > * { padding-left: 3.2rem; } .n { width: 2.6rem; } .t > * { padding-right: .7rem; } }
@media print { body { display: block; height: auto; } section { overflow: visible; }
  #tabs, aside { display: none !important; } section { display: block !important; }
  section + section { border: 0; } h2 { position: static; } nav { max-height: none; }
  .t div, details, details::details-content { content-visibility: visible; }
  details::details-content { display: block; } }
</style>
<header><h1>"##;

const SOURCE: &str = r##"</p><p id=tabs hidden><button data-tab=s>Source</button>
<button data-tab=e>Expansion</button> <button data-tab=l>Macros and calls</button>
<button data-tab=p hidden>Steps</button></p></header>
<section id=s tabindex=0 aria-label=Source><h2>Source</h2><div class=t><div>"##;

const EXPANSION: &str = r##"</div></div></section>
<section id=e tabindex=0 aria-label=Expansion><h2>Expansion</h2><div class=t>"##;

const UNREAD: &str = "<p class=c>The text cannot be read, so it has no expansion.</p>";

const FAULTS: &str = r##"</div></section>
<nav aria-label=Faults><ul>
"##;

const FOOT: &str = r##"</ul></nav>
<aside id=l aria-label="Macros and calls"></aside>
<script>
"use strict";
// A pane has blocks, of which each has elements and text. An element is one token, unless its
// class is `c`, or `n` for the number of a line. In text each word is a token, and each other
// character but white space.
const TOKEN = /\w+|[^\s\w]/g, PART = /\w+|[^\s\w]|\n/g, BRACKETS = "([{!)]}", MOST = 1000;
const BLOCKS = { s: "#s .t > div", e: "#e summary, #e details > div" };
const paneOf = (id) => {
  const blocks = [...document.querySelectorAll(BLOCKS[id])];
  blocks.forEach((block, i) => { block.at = i; });
  // `starts` has the number of tokens before each block, as far as blocks are read.
  return { id, blocks, starts: [0], count: 0, line: 1, tints: [] };
};
const source = paneOf("s"), shown = paneOf("e");
// What each token of the source is of `BRACKETS`, and the origin of each printed token, from 1.
const signs = [], from = [];
const isToken = (node) => node.className !== "c" && node.className !== "n";
let first = null, next = null, kept = null, marked = [], number = 0;
const readBlock = (pane, readWord, readElement) => {
  const block = pane.blocks[pane.starts.length - 1];
  block.normalize();
  block.line = pane.line;
  for (let node = block.firstChild; node; node = node.nextSibling) {
    if (node.nodeType === 3) {
      for (const part of node.data.match(PART) || []) {
        if (part === "\n") pane.line += 1;
        else { readWord(part); pane.count += 1; }
      }
    } else {
      if (isToken(node)) { readElement(node); pane.count += 1; }
      pane.line += node.textContent.split("\n").length - 1;
    }
  }
  pane.starts.push(pane.count);
  dress(block);
};
// Macros and calls of the source, each with its name, the token of that and its line. A call in a
// definition is none. A call has the token of its closing bracket.
const macros = [], calls = [], open = [], last = ["", ""], faults = new Map();
const WORDS = new Set("if while match return in break else".split(" "));
const isName = (text) => /^(r#)?[\p{L}_][\p{L}\p{N}_]*$/u.test(text) && !WORDS.has(text);
let definition = null;
const found = (list, name, at) => {
  list.push({ name, at, line: source.line, end: at });
  return list[list.length - 1];
};
const define = (name, at, isRules) => {
  found(macros, name, at);
  definition = { depth: open.length, isRules };
};
const readSign = (text) => {
  const sign = BRACKETS.indexOf(text), at = signs.length, [first, second] = last;
  signs.push(sign);
  last[0] = second;
  last[1] = text;
  if (sign >= 0 && sign < 3) {
    const isCall = !definition && second === "!" && isName(first);
    open.push(isCall ? found(calls, first, at - 2) : null);
  } else if (sign > 3) {
    const call = open.pop();
    if (call) call.end = at;
    if (definition && open.length <= definition.depth && (definition.isRules || text === "}")) {
      definition = null;
    }
  } else if (!definition && isName(text)) {
    if (second === "!" && first === "macro_rules") define(text, at, true);
    if (second === "macro") define(text, at, false);
  }
};
const readMarked = (node) => {
  if (node.classList.contains("f")) faults.set(signs.length, node.title);
  readSign(node.textContent);
};
const readOrigin = (node) => {
  number = node.hasAttribute("o") ? +node.getAttribute("o") : number + 1;
  from.push(number);
};
// The printed tokens of each token of the source as linked lists.
const link = () => {
  next = new Int32Array(from.length).fill(-1);
  first = new Int32Array(signs.length).fill(-1);
  for (let i = from.length - 1; i >= 0; i--) {
    const at = from[i] - 1;
    if (at >= 0 && at < first.length) {
      next[i] = first[at];
      first[at] = i;
    }
  }
};
const isRead = () => first !== null;
const readNext = () => {
  if (source.starts.length <= source.blocks.length) {
    readBlock(source, readSign, readMarked);
  } else if (shown.starts.length <= shown.blocks.length) {
    readBlock(shown, () => { from.push(++number); }, readOrigin);
  } else {
    link();
    tint();
    list();
    match();
    [...source.blocks, ...shown.blocks].forEach(dress);
  }
};
const finish = () => { while (!isRead()) readNext(); };
// Reads for some milliseconds, and goes on when the page has answered what it was asked.
const slice = () => {
  const end = performance.now() + 8;
  while (!isRead() && performance.now() < end) readNext();
  if (!isRead()) setTimeout(slice);
};
// The elements of a block's tokens, which are made when they are first asked for.
const elementsOf = (block) => {
  if (block.tokens) return block.tokens;
  block.normalize();
  block.tokens = [];
  for (const node of [...block.childNodes]) {
    if (node.nodeType === 3) node.replaceWith(...wrapped(node.data, block.tokens));
    else if (isToken(node)) block.tokens.push(node);
  }
  return block.tokens;
};
const wrapped = (text, tokens) => {
  const nodes = [];
  let end = 0;
  for (const found of text.matchAll(TOKEN)) {
    const it = document.createElement("i");
    it.textContent = found[0];
    nodes.push(text.slice(end, found.index), it);
    tokens.push(it);
    end = found.index + found[0].length;
  }
  return [...nodes, text.slice(end)];
};
// A token is a pane and its index there. Its element:
const elementOf = ({ pane, at }) => {
  let low = 0, high = pane.blocks.length;
  while (high - low > 1) {
    const middle = (low + high) >> 1;
    if (pane.starts[middle] <= at) low = middle; else high = middle;
  }
  return elementsOf(pane.blocks[low])[at - pane.starts[low]];
};
const isIn = (pane, at) => at >= 0 && at < pane.count;
const isOpen = (at) => signs[at] >= 0 && signs[at] < 3, isClose = (at) => signs[at] > 3;
const isPrinted = (at) => first[at] >= 0;
// The nearest token to the left (step -1) or right of these that is printed, where a group that is
// not printed is passed over; or the bracket of a group that is not printed and has them in it.
const neighbour = (at, step) => {
  const [enters, leaves] = step < 0 ? [isClose, isOpen] : [isOpen, isClose];
  let depth = 0;
  for (; isIn(source, at); at += step) {
    if (enters(at) && (depth || !isPrinted(at))) depth += 1;
    else if (leaves(at) && depth) depth -= 1;
    else if (!depth && (isPrinted(at) || leaves(at))) break;
  }
  return at;
};
const lastOf = (at) => { let i = first[at]; while (next[i] >= 0) i = next[i]; return i; };
// What comes of each call, but of those in an argument, is tinted, and so is the call: from the
// token before the call, and up to that behind it, that is printed. Calls between which nothing is
// printed share this. A group that is not printed, as of a definition, is passed over.
const tint = () => {
  const gone = calls.filter((call) => !isPrinted(call.at));
  let depth = 0, before = -1, now = null, number = 0, at = 0, which = 0;
  const close = (stop) => {
    if (now) shown.tints.push({ ...now, stop });
    now = null;
  };
  while (at < source.count && shown.count) {
    while (which < gone.length && gone[which].at < at) which += 1;
    const call = gone[which];
    if (call && call.at === at && !depth) {
      now = now || { start: before < 0 ? 0 : lastOf(before) + 1, k: number++ % 4 };
      call.k = now.k;
      source.tints.push({ start: at, stop: call.end + 1, k: call.k });
      at = call.end;
    } else if (isOpen(at) && (depth || !isPrinted(at))) {
      depth += 1;
    } else if (isClose(at) && depth) {
      depth -= 1;
    } else if (!depth && isPrinted(at)) {
      close(first[at]);
      before = at;
    }
    at += 1;
  }
  close(shown.count);
};
// A block near the window gets the numbers of its lines and the tints of its tokens.
const near = new Set();
const dress = (block) => {
  if (!near.has(block) || !block.line) return;
  const pane = block.closest("#s") ? source : shown;
  if (pane === source) numberLines(block);
  if (!isRead() || block.isTinted) return;
  block.isTinted = true;
  const start = pane.starts[block.at], stop = pane.starts[block.at + 1];
  for (const it of pane.tints) {
    for (let i = Math.max(it.start, start); i < Math.min(it.stop, stop); i++) {
      elementsOf(block)[i - start].dataset.k = it.k;
    }
  }
};
const numberLines = (block) => {
  block.querySelectorAll(".n").forEach((old) => old.remove());
  const top = block.getBoundingClientRect().top, range = document.createRange(), numbers = [];
  const walk = document.createTreeWalker(block, NodeFilter.SHOW_TEXT);
  let line = block.line, isBegun = false;
  for (let node = walk.nextNode(); node; node = walk.nextNode()) {
    for (let at = 0; at < node.length;) {
      if (!isBegun) {
        range.setStart(node, at);
        range.setEnd(node, at + 1);
        const [place] = range.getClientRects(), it = document.createElement("span");
        it.className = "n";
        it.dataset.n = line;
        if (place) {
          it.style.top = `${place.top - top}px`;
          it.style.lineHeight = `${place.height}px`;
          numbers.push(it);
        }
      }
      const feed = node.data.indexOf("\n", at);
      isBegun = feed < 0;
      if (isBegun) break;
      line += 1;
      at = feed + 1;
    }
  }
  block.append(...numbers);
};
const watch = (id) => {
  const root = document.getElementById(id);
  const watcher = new IntersectionObserver((seen) => seen.forEach(({ isIntersecting, target }) => {
    near[isIntersecting ? "add" : "delete"](target);
    dress(target);
  }), { root, rootMargin: "50% 0px" });
  (id === "s" ? source : shown).blocks.forEach((block) => watcher.observe(block));
  let width = root.clientWidth;
  new ResizeObserver(() => {
    if (root.clientWidth !== width) near.forEach(dress);
    width = root.clientWidth;
  }).observe(root);
};
// The list of macros and calls.
const element = (name, text, ...inside) => {
  const it = document.createElement(name);
  it.append(text, ...inside);
  return it;
};
const stateOf = (call) => {
  const fault = faults.get(call.at), isGone = !isPrinted(call.at) && !isPrinted(call.at + 1);
  const words = fault ? fault.replace(/^.*?: /, "").trim()
    : isGone ? "expanded" : "no definition here";
  const state = element("span", shown.count || fault ? words : "");
  state.className = fault ? "f" : "";
  return state;
};
const itemOf = (it, mark, ...state) => {
  const link = element("a", element("bdi", it.name + mark)), item = element("li", link);
  link.href = `#s${it.at + 1}`;
  item.append(" ", element("span", `line ${it.line}`), ...state);
  if (it.k >= 0) link.dataset.k = it.k;
  return item;
};
const listOf = (title, items, make) => {
  const all = element("ul", "");
  all.append(...items.slice(0, MOST).map(make));
  if (items.length > MOST) all.append(element("li", `${items.length - MOST} more`));
  return items.length ? [element("h3", `${title} (${items.length})`), all] : [];
};
const list = () => {
  const pane = document.getElementById("l");
  if (!macros.length && !calls.length) return;
  pane.append(element("h2", "Macros and calls"));
  pane.append(...listOf("Macros", macros, (it) => itemOf(it, "")));
  pane.append(...listOf("Calls", calls, (it) => itemOf(it, "!", ", ", stateOf(it))));
  document.getElementById("tabs").hidden = false;
  if (innerWidth >= 1100) document.body.classList.add("listed");
  press();
};
// In a narrow window one pane is shown at a time, in a wide one two of three or four.
const CLASSES = { l: "listed", p: "stepped" };
const isNarrow = () => matchMedia("(max-width: 48em)").matches;
const press = () => document.querySelectorAll("#tabs button").forEach((button) => {
  const id = button.dataset.tab, body = document.body;
  const isShown = isNarrow() ? body.dataset.tab === id : body.classList.contains(CLASSES[id]);
  button.setAttribute("aria-pressed", isShown);
});
const showTab = (id) => {
  document.body.dataset.tab = id;
  press();
  if (kept) [kept, ...others(kept)].filter(({ pane }) => pane.id === id).slice(0, 1).forEach(see);
};
const showAside = (id) => {
  const list = document.body.classList, isShown = list.contains(CLASSES[id]);
  list.remove("listed", "stepped");
  list.toggle(CLASSES[id], !isShown);
};
document.getElementById("tabs").addEventListener("click", ({ target }) => {
  if (!target.dataset.tab) return;
  if (isNarrow()) showTab(target.dataset.tab);
  else showAside(target.dataset.tab);
  press();
});
addEventListener("resize", press);
// What is printed between the tokens around a call, whose name is here; of a call in another's
// argument, around that one.
const printedOfCall = (at) => {
  const isCall = !isPrinted(at) && signs[at + 1] === 3 && isOpen(at + 2);
  if (!isCall) return [];
  const before = neighbour(at - 1, -1);
  if (isIn(source, before) && !isPrinted(before)) return printedOfCall(before - 2);
  let end = at + 2, depth = 0;
  do depth += isOpen(end) ? 1 : isClose(end) ? -1 : 0; while (++end < source.count && depth);
  const after = neighbour(end, 1);
  let i = isIn(source, before) ? lastOf(before) + 1 : 0;
  const stop = isIn(source, after) ? first[after] : shown.count, found = [];
  for (; i < stop && found.length < MOST; i++) found.push({ pane: shown, at: i });
  return found;
};
// The origin of a printed token, or what came of a token of the source.
const others = ({ pane, at }) => {
  if (pane === shown) {
    return isIn(source, from[at] - 1) ? [{ pane: source, at: from[at] - 1 }] : [];
  }
  const found = [];
  for (let i = first[at]; i >= 0 && found.length < MOST; i = next[i]) {
    found.push({ pane: shown, at: i });
  }
  return found.length ? found : printedOfCall(at);
};
const mark = (it) => {
  for (const old of marked) old.classList.remove("m", "o");
  marked = it ? [it, ...others(it)].map(elementOf) : [];
  marked.forEach((one, i) => one.classList.add(i ? "o" : "m"));
};
const see = (it) => {
  const element = elementOf(it), fold = element.closest("details");
  if (fold && !element.closest("summary")) fold.open = true;
  element.scrollIntoView({ block: "nearest" });
};
// The pane of steps: of each call that is written in the source, one by one. A call in another
// has none of its own, unless that stays.
const roots = [];
let stepper = null, chosen = 0, root = null;
const readSteps = () => {
  stepper = document.getElementById("p");
  const told = stepper ? stepper.querySelector("bdi").textContent : "", cuts = [];
  for (const line of told.split("\n").filter((it) => it)) {
    const place = /^\S.*:(\d+):\d+: (.+)!$/.exec(line), last = roots[roots.length - 1];
    if (place) roots.push({ line: +place[1], key: place[2], steps: [], call: null });
    else if (last && line.startsWith("cut: what ")) last.steps.push(line);
    else if (line.startsWith("cut: ")) cuts.push(line);
    else if (last && /^[ \d]{2}\d {2}/.test(line)) last.steps.push(line);
    else if (last && last.steps.length) last.steps[last.steps.length - 1] += `\n${line}`;
  }
  if (!roots.length) return;
  cuts.slice(-1).forEach((cut) => stepper.append(element("p", element("bdi", cut))));
  document.querySelector("[data-tab=p]").hidden = document.getElementById("tabs").hidden = false;
  press();
  showSteps();
};
const isNamed = (it, call) => it.key === call.name || it.key.endsWith(`::${call.name}`);
// Finds the calls, in order. What is in a call that is expanded is passed over.
const match = () => {
  let which = 0;
  for (const it of roots) {
    let at = which;
    while (at < calls.length && (calls[at].line !== it.line || !isNamed(it, calls[at]))) at += 1;
    if (at === calls.length) continue;
    it.call = calls[at];
    const stop = /  stays: /.test(it.steps[0]) ? it.call.at : it.call.end;
    for (which = at; which < calls.length && calls[which].at <= stop;) which += 1;
  }
};
const showSteps = () => {
  if (!stepper) return;
  const words = root ? root.steps : ["Choose a call in the source."];
  stepper.querySelector("pre").replaceChildren(...words.map((it) => {
    const item = element("div", "");
    item.append(...it.split("\n").flatMap(lineOf));
    return item;
  }));
  choose(0);
};
// A line, and what stands beside it.
const lineOf = (line) => {
  const [, left, right] = /^(?! +(?:=|note:) )(.*\S) {2,}(\S.*)$/.exec(line) || [null, line, ""];
  const beside = element("span", element("bdi", right));
  beside.className = "c";
  return [element("bdi", left), right ? "   " : "", right ? beside : "", "\n"];
};
const choose = (at) => {
  const items = [...stepper.querySelectorAll("pre div")];
  chosen = Math.max(0, Math.min(at, items.length - 1));
  items.forEach((it, i) => {
    it.classList.toggle("m", root && i === chosen);
    if (root && i === chosen) it.setAttribute("aria-current", "step");
    else it.removeAttribute("aria-current");
  });
  if (root) items[chosen].scrollIntoView({ block: "nearest" });
};
const walkSteps = (event) => {
  const count = root ? root.steps.length : 0;
  const at = { ArrowDown: chosen + 1, ArrowUp: chosen - 1, Home: 0, End: count - 1 }[event.key];
  if (at === undefined) return;
  event.preventDefault();
  choose(at);
};
const seek = (it) => {
  const [here] = it ? (it.pane === source ? [it] : others(it)) : [];
  const isIn = ({ call }) => call && call.at <= here.at && here.at <= call.end;
  const found = here ? roots.filter(isIn).pop() || null : null;
  if (found === root) return;
  root = found;
  showSteps();
};
const keep = (it, isSeen) => {
  kept = it;
  mark(it);
  seek(it);
  if (it && isNarrow()) {
    if (isSeen) showTab(it.pane.id);
  } else if (it) {
    [...(isSeen ? [it] : []), ...others(it).slice(0, 1)].forEach(see);
  }
};
const isSame = (a, b) => a && b && a.pane === b.pane && a.at === b.at;
const tokenOf = (target, event) => {
  const block = target.closest && target.closest(`${BLOCKS.s}, ${BLOCKS.e}`);
  if (!block) return null;
  finish();
  if (!block.tokens) {
    elementsOf(block);
    const here = document.elementFromPoint(event.clientX, event.clientY);
    return tokenOf(here || document.body, event);
  }
  const pane = block.closest("#s") ? source : shown;
  const index = block.tokens.indexOf(target.closest("i, bdi"));
  return index < 0 ? null : { pane, at: pane.starts[block.at] + index };
};
addEventListener("mouseover", (event) => mark(tokenOf(event.target, event) || kept));
addEventListener("click", (event) => {
  const it = tokenOf(event.target, event), item = event.target.closest("#p div");
  if (item && root) choose([...item.parentNode.children].indexOf(item));
  if (!it) return;
  event.preventDefault();
  keep(isSame(it, kept) ? null : it, false);
});
// In a pane the arrows go from token to token, Enter goes to the other pane, Escape unmarks.
addEventListener("keydown", (event) => {
  const active = document.activeElement;
  if (event.key === "Escape") keep(null);
  if (active === stepper && !(event.altKey || event.ctrlKey || event.metaKey)) walkSteps(event);
  if (!active.matches("section") || event.altKey || event.ctrlKey || event.metaKey) return;
  const pane = active.id === "e" ? shown : source, isHere = kept && kept.pane === pane;
  const step = { ArrowRight: 1, ArrowLeft: -1 }[event.key];
  finish();
  if (step && pane.count) {
    event.preventDefault();
    const at = isHere ? kept.at + step : step > 0 ? 0 : pane.count - 1;
    keep(isIn(pane, at) ? { pane, at } : kept, true);
  } else if (event.key === "Enter" && isHere && others(kept).length) {
    keep(others(kept)[0], true);
    document.getElementById(kept.pane.id).focus();
  }
});
// `#s3` is the third token of the source, `#e3` that of the expansion.
const follow = () => {
  const [, id, count] = /^#([se])(\d+)$/.exec(location.hash) || [];
  if (!id) return;
  finish();
  const it = { pane: id === "e" ? shown : source, at: count - 1 };
  if (isIn(it.pane, it.at)) keep(it, true);
};
addEventListener("hashchange", follow);
addEventListener("beforeprint", () => {
  document.querySelectorAll("details").forEach((it) => { it.open = true; });
});
addEventListener("DOMContentLoaded", () => {
  readSteps();
  if (isRead()) match();
  if (kept) seek(kept);
});
document.body.dataset.tab = "s";
document.getElementById("tabs").hidden = !isNarrow();
watch("s");
watch("e");
setTimeout(slice);
follow();
</script>
"##;

const COUNTS: &str = "</h1><p>";

/// What is the same on every page.
pub(crate) fn frame() -> Frame<'static>
    ensures { IsFrame result }
{
    Frame {
        head: HEAD,
        heading: HEADING,
        counts: COUNTS,
        source: SOURCE,
        expansion: EXPANSION,
        unread: UNREAD,
        faults: FAULTS,
        foot: FOOT,
    }
}
