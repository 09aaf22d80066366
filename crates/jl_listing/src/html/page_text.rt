//! The fixed text of a page: its looks, and the script that shows the rows.

/// What comes before the rows.
pub(crate) const BEFORE_ROWS: &str = r##"<!doctype html>
<html lang="en"><head><meta charset="utf-8"><meta name="viewport" content="width=device-width"><meta name="color-scheme" content="light dark">
<title>linkd report</title><style>
:root{--ink:#222;--paper:#fff;--soft:#555;--faint:#999;--edge:#777;--link:#0b57d0}
@media(prefers-color-scheme:dark){:root{--ink:#ddd;--paper:#161616;--soft:#aaa;--faint:#777;--edge:#888;--link:#8ab4f8}body .p3{--c:#d16ad0}}
body{font:15px/1.5 system-ui,sans-serif;max-width:90em;margin:1.5em auto;padding:0 1em;color:var(--ink);background:var(--paper)}
h1{font-size:1.4em;margin:0}h2{font-size:1.1em;margin:1.5em 0 .3em}p{margin:.4em 0}
.row{display:flex;gap:.5rem;align-items:center}
.name{flex:1;min-width:0;overflow-wrap:anywhere}
.row b,.head span{width:4.6rem;text-align:right;font-weight:normal;font-variant-numeric:tabular-nums}
.row b{border-bottom:2px solid var(--c)}.row b.none{border-color:transparent;color:var(--faint)}
.head{position:sticky;top:0;background:var(--paper);border-bottom:1px solid var(--edge);color:var(--soft);font-size:.85em;line-height:1.2;align-items:end}
.head .name{text-align:left}.bar,.head .bar{display:flex;flex:none;width:12rem;height:.8em;border:1px solid var(--edge);text-align:left}
.head .bar{visibility:hidden}
.p0{--c:#1b9e77}.p1{--c:#e6ab02}.p2{--c:#d95f02}.p3{--c:#7a0177}.p4{--c:#a6cee3}.p5{--c:#999}
i{display:block;background:var(--c)}.key span,label{white-space:nowrap}
.key i{display:inline-block;width:1em;height:.8em;border:1px solid var(--edge);margin-left:.8em}
summary{cursor:pointer}summary.row::before{content:"+";width:1em}details[open]>summary.row::before{content:"-"}
details details,.site{margin-left:1.4em}
.site{padding:.15em 0 .15em .6em;border-left:3px solid var(--c);overflow-wrap:anywhere}.site small{color:var(--soft)}
input,select{font:inherit;margin-right:.8em;max-width:100%}li,p{overflow-wrap:anywhere}code{font-size:.95em}
button{font:inherit;padding:0;border:0;background:none;color:var(--link);cursor:pointer;text-align:left;overflow-wrap:anywhere}
details>button{display:block;margin-left:1.4em;font-size:.9em}.note{font-weight:bold}.met{outline:2px solid var(--link);outline-offset:2px}
#about{position:sticky;bottom:0;max-height:40vh;overflow:auto;background:var(--paper);border-top:2px solid var(--edge);padding:.4em 0}
@media(max-width:60em){.row{flex-wrap:wrap;column-gap:.4rem}.name{flex-basis:calc(100% - 2em)}.head span{display:none}
.row b{flex:1;min-width:0;font-size:.85em}.bar{width:3em}details details,.site{margin-left:.7em}}
@media print{body{max-width:none;margin:0}.row{break-inside:avoid}i,.site{print-color-adjust:exact;-webkit-print-color-adjust:exact}form{display:none}}
</style></head><body>
<h1>What invocations come to</h1>
<p class="note" id="nothing"></p><p id="read"></p><p id="asked"></p><p class="key" id="key"></p>
<form onsubmit="return false"><label>Find <input id="find" type="search" placeholder="class, method or type"></label>
<label>Show <select id="chosen"><option value="all">all</option><option value="mega">megamorphic ones</option>
<option value="open">those that a further class may change</option></select></label>
<label>Order <select id="order"><option value="name">by name</option>
<option value="worst">fewest of one method or a table first</option></select></label></form>
<div class="row head" id="head"></div><div id="all"></div>
<div id="dropped"></div><div id="missing"></div><div id="circles"></div><div id="elsewhere"></div><div id="left"></div><div id="about" hidden></div>
<noscript><p>The rows are shown by a script of this page.</p></noscript>
<script type="application/json" id="report">"##;

/// What comes after them.
pub(crate) const AFTER_ROWS: &str = r##"</script><script>
"use strict";
const PARTS = ["one method", "table", "mega\u00admorphic", "throws", "no re\u00adceivers, never linked", "waits"];
const D = JSON.parse(document.getElementById("report").textContent), T = D.texts;
const at = id => document.getElementById(id);
const items = list => list.filter(item => item !== 0);
const dotted = text => text.replaceAll("/", ".");
function make(tag, name, text) {
  const made = document.createElement(tag);
  if (name) made.className = name;
  if (text !== undefined) made.textContent = text;
  return made;
}
// A type of a descriptor from place i on, as Java writes it, and the place after it.
function javaType(text, i) {
  let depth = 0;
  for (; text[i] === "["; i++) depth++;
  const end = text[i] === "L" ? text.indexOf(";", i) : i;
  const plain = { B: "byte", C: "char", D: "double", F: "float", I: "int", J: "long", S: "short", Z: "boolean", V: "void" }[text[i]];
  return [(text[i] === "L" ? dotted(text.slice(i + 1, end)) : plain) + "[]".repeat(depth), end + 1];
}
function javaMethod(owner, name, type) {
  const taken = [];
  let i = 1;
  while (type[i] !== ")") {
    const [one, next] = javaType(type, i);
    taken.push(one);
    i = next;
  }
  const of = owner === "" ? "" : (owner[0] === "[" ? javaType(owner, 0)[0] : dotted(owner)) + ".";
  return javaType(type, i + 1)[0] + " " + of + name + "(" + taken.join(", ") + ")";
}
const join = (sums, more) => more.forEach((count, part) => sums[part] += count);
const sum = counts => counts.reduce((a, b) => a + b, 0);
// A node has a name, its six counts, and what is below it, which is made once it is opened.
function methodNode([name, type, ...sites]) {
  const node = { name: javaMethod("", T[name], T[type]), own: T[name], type: T[type], counts: [0, 0, 0, 0, 0, 0], sites: items(sites), below: [] };
  for (const site of node.sites) node.counts[site[2]]++;
  return node;
}
function parent(name, below) {
  const node = { name, counts: [0, 0, 0, 0, 0, 0], below, sites: [] };
  for (const one of below) join(node.counts, one.counts);
  return node;
}
function packages() {
  const found = new Map();
  for (const [name, ...methods] of items(D.classes)) {
    const full = T[name], cut = full.lastIndexOf("/"), of = cut < 0 ? "(no package)" : dotted(full.slice(0, cut));
    if (!found.has(of)) found.set(of, []);
    found.get(of).push(Object.assign(parent(full.slice(cut + 1), items(methods).map(methodNode)), { full }));
  }
  return [...found].map(([name, classes]) => parent(name, classes));
}
function row(tag, name, counts) {
  const shown = make(tag, "row"), bar = make("span", "bar"), all = sum(counts);
  bar.setAttribute("aria-hidden", "true");
  shown.append(make("span", "name", name), bar);
  counts.forEach((count, part) => {
    const share = all ? (100 * count / all).toFixed(1) + " %" : "";
    if (count) bar.append(make("i", "p" + part)), bar.lastChild.style.flexGrow = count;
    shown.append(make("b", "p" + part + (count ? "" : " none"), count));
    shown.lastChild.title = PARTS[part] + ": " + share;
  });
  return shown;
}
// The methods that an invocation of this name can run, by what it comes to: the text before each, and its class, or none where no method is named.
function runs(words, name) {
  const [, head, list] = words.match(/^(direct |table of [^:]*: |mega [^:]*: )(.*)$/s) || [0, words, ""];
  const parts = list ? list.split(", ") : [];
  return [[head, null], ...parts.map((one, place) => {
    const cut = one.indexOf(" -> ") + 1, target = cut ? one.slice(cut + 3) : one, before = (place ? ", " : "") + one.slice(0, one.length - target.length);
    return target.endsWith("." + name) ? [before, target.slice(0, -name.length - 1)] : [before + target, null];
  })];
}
function button(text, does) {
  const made = make("button", "", text);
  made.type = "button";
  made.addEventListener("click", does);
  return made;
}
function site([pc, kind, part, owner, name, type, words]) {
  const shown = make("div", "site p" + part), [first, ...more] = T[words].split("; ");
  shown.append(make("small", "", pc + " " + T[kind] + " "), javaMethod(T[owner], T[name], T[type]), make("br"));
  for (const [before, of] of runs(first, T[name])) {
    shown.append(dotted(before));
    if (of !== null) shown.append(button(dotted(of) + "." + T[name], () => about(of, T[name], T[type])));
  }
  for (const one of more) shown.append(make("br"), make("small", "", dotted(one)));
  return shown;
}
const open = counts => counts[2] + counts[3] + counts[4] + counts[5];
function ordered(nodes) {
  const worst = at("order").value === "worst";
  return [...nodes].sort((a, b) => worst && open(b.counts) - open(a.counts) || (a.name < b.name ? -1 : a.name > b.name ? 1 : 0));
}
function tree(node, opened) {
  const shown = make("details"), fill = () => {
    if (shown.childElementCount > 1) return;
    if (node.of) shown.append(button("called by ..", () => about(node.of, node.own, node.type)));
    for (const one of ordered(node.below)) shown.append(tree(one, opened));
    for (const one of node.sites) shown.append(site(one));
  };
  node.reveal = () => (shown.open = true, fill(), shown);
  shown.append(row("summary", node.name, node.counts));
  shown.addEventListener("toggle", () => shown.open && fill());
  if (opened) shown.open = true, fill();
  return shown;
}
// Which invocations are shown.
const CHOICES = { all: null, mega: one => one[2] === 2, open: one => T[one[6]].includes("; rests on the subclasses of ") };
// A node with those of its invocations that are shown, if there are any.
function chosen(node, takes) {
  if (node.below.length) {
    const below = node.below.map(one => chosen(one, takes)).filter(one => one);
    return below.length ? parent(node.name, below) : null;
  }
  const sites = node.sites.filter(takes);
  return sites.length ? withSites(node, sites) : null;
}
function withSites(node, sites) {
  const counts = [0, 0, 0, 0, 0, 0];
  for (const one of sites) counts[one[2]]++;
  return { ...node, counts, sites };
}
// What of a node the text is found in: all, or those below it that have it.
function part(node, above, text) {
  const name = above + (node.own || node.name);
  if ((name + " " + node.name).toLowerCase().includes(text)) return node;
  if (!node.below.length) {
    const sites = node.sites.filter(one => javaMethod(T[one[3]], T[one[4]], T[one[5]]).toLowerCase().includes(text));
    return sites.length ? withSites(node, sites) : null;
  }
  const below = node.below.map(one => part(one, name + ".", text)).filter(one => one);
  return below.length ? parent(node.name, below) : null;
}
const PACKAGES = packages();
// The rows of methods by class, name and descriptor, each with what it stands in; and who calls a method, which is made once it is asked for.
const PLACES = new Map();
for (const pack of PACKAGES) for (const type of pack.below) for (const one of type.below) {
  one.of = type.full;
  PLACES.set(type.full + "." + one.own + one.type, [pack, type, one]);
}
let callers = null;
function callersOf(key) {
  if (!callers) {
    callers = new Map();
    for (const [caller, places] of PLACES) for (const [pc, , , , name, type, words] of places[2].sites)
      for (const [, of] of runs(T[words].split("; ")[0], T[name])) if (of !== null) {
        const callee = of + "." + T[name] + T[type];
        if (!callers.has(callee)) callers.set(callee, []);
        callers.get(callee).push([caller, pc]);
      }
  }
  return callers.get(key) || [];
}
function goTo(key) {
  if (at("find").value || at("chosen").value !== "all") at("find").value = "", at("chosen").value = "all", show();
  const shown = PLACES.get(key).map(one => one.reveal())[2];
  document.querySelectorAll(".met").forEach(one => one.classList.remove("met"));
  shown.classList.add("met");
  shown.scrollIntoView({ block: "center" });
}
const titled = key => { const [, type, one] = PLACES.get(key); return dotted(type.full) + ": " + one.name; };
const MOST_CALLERS = 200;
// A method: a way to its row, and who calls it.
function about(of, name, type) {
  const key = of + "." + name + type, found = callersOf(key), panel = at("about"), list = make("ul");
  for (const [caller, pc] of found.slice(0, MOST_CALLERS)) {
    list.append(make("li"), " ");
    list.lastElementChild.append(button(titled(caller) + ", " + pc, () => goTo(caller)));
  }
  if (found.length > MOST_CALLERS) list.append(make("li", "", "and " + (found.length - MOST_CALLERS) + " more"));
  panel.replaceChildren(make("strong", "", javaMethod(of, name, type)), " ",
    PLACES.has(key) ? button("its invocations", () => goTo(key)) : "(no invocations here) ", " ",
    button("close", () => panel.hidden = true), make("div", "", "called by " + found.length + " invocations of this page"), list);
  panel.hidden = false;
}
function show() {
  const text = dotted(at("find").value.trim().toLowerCase()), takes = CHOICES[at("chosen").value];
  const kept = takes ? PACKAGES.map(one => chosen(one, takes)).filter(one => one) : PACKAGES;
  const found = text ? kept.map(one => part(one, "", text)).filter(one => one) : kept;
  const all = parent(text || takes ? "Found" : "All", found), opened = location.hash === "#open" || text && sum(all.counts) < 500;
  const list = ordered(found).map(one => tree(one, opened)), whole = row("div", all.name, all.counts), shares = row("div", "per cent", all.counts);
  shares.querySelectorAll("b").forEach((cell, place) => cell.textContent = sum(all.counts) ? (100 * all.counts[place] / sum(all.counts)).toFixed(1) : "");
  shares.querySelector(".bar").style.visibility = "hidden";
  shares.id = "shares";
  at("all").replaceChildren(whole, shares, ...list);
}
function told(id, head, rows, line) {
  if (!rows.length) return;
  const shown = make("details"), list = make("ul");
  shown.append(make("summary", "", head + " (" + rows.length + ")"));
  shown.addEventListener("toggle", () => list.childElementCount || list.append(...rows.map(one => make("li", "", line(one)))));
  shown.append(list);
  at(id).append(shown);
}
at("nothing").textContent = D.nothing;
at("asked").append("Asked for by ", make("code", "", "linkd " + items(D.words).join(" ")), "."
  + (D.otherInvocations ? " Not shown, by --only: " + D.otherInvocations + " invocations." : "")
  + (D.otherClasses ? " Not shown, by --in: " + D.otherClasses + " classes." : "")
  + (D.dropped.length > 1 || D.further ? " Further classes, by --breaks: " + D.further + "." : ""));
at("read").textContent = "Read from " + items(D.paths).join(", ") + (D.beside.length > 1 ? ", with " + items(D.beside).join(", ") : "")
  + (D.seconds ? ", on " + new Date(1000 * D.seconds).toLocaleString() : "") + "."
  + (D.later ? " Class files above 61.0, linked as SE 17 says: " + D.later + "." : "");
at("key").append("What an invocation can run among these classes:");
PARTS.forEach((name, part) => {
  const one = make("span");
  one.append(make("i", "p" + part), " " + name.replaceAll("\u00ad", ""));
  at("key").append(one, " ");
});
at("head").append(make("span", "name", "package, class, method"), make("span", "bar"), ...PARTS.map(name => make("span", "", name)));
told("dropped", "Links that further classes drop", items(D.dropped), one => dotted(T[one[0]]) + " drops " + dotted(T[one[1]]) + ": "
  + javaMethod("", T[one[2]], T[one[3]]) + ", " + one[4] + " " + T[one[5]] + ": " + dotted(T[one[6]]) + "; now " + dotted(T[one[7]]));
told("circles", "Circles of parents", items(D.circles), dotted);
told("elsewhere", "Files at other places", D.elsewhere[0] ? Array(1).fill(D.elsewhere) : [],
  one => one[0] + ", as " + one[1] + ", which has " + dotted(one[2]));
told("missing", "Classes that are missing", items(D.missing),
  one => dotted(one[0]) + ": " + one[1] + " invocations wait, " + one[2] + " classes are left out below it");
told("left", "Files that are left out", items(D.leftOut), one => one[0] + ": " + one[1]);
at("find").addEventListener("input", show);
at("order").addEventListener("change", show);
at("chosen").addEventListener("change", show);
show();
</script></body></html>
"##;
