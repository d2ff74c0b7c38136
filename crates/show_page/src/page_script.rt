//! The script of a page.

/// The end of the data, and the script, which shows them.
pub(crate) const SCRIPT: &[u8] = b"
</script>
<script>
'use strict';
const byId = id => document.getElementById(id);
const [[, minor, ...texts], presetRows, instrumentRows, sampleRows, findingRows] =
  JSON.parse(byId('bank').textContent);

// ---- elements; what the bank holds only ever becomes text

function fill(node, attributes, parts) {
  for (const name in attributes) node.setAttribute(name, attributes[name]);
  node.append(...parts.flat(Infinity).filter(part => part || part === 0));
  return node;
}
const el = (tag, attributes, ...parts) => fill(document.createElement(tag), attributes, parts);
const draw = (tag, attributes, ...parts) =>
  fill(document.createElementNS('http://www.w3.org/2000/svg', tag), attributes, parts);
const soft = (...parts) => el('span', {class: 'soft'}, parts);
const link = member => el('a', {href: '#' + member.id}, member.title);
const zoneLink = (owner, zone) => el('a', {href: `#${owner.id}-zone-${zone.n}`}, 'zone ' + zone.n);
const list = pairs =>
  el('dl', {}, pairs.filter(pair => pair).map(([term, parts]) => [el('dt', {}, term), el('dd', {}, parts)]));
const commas = parts => parts.map((part, i) => i ? [', ', part] : part);

// ---- numbers as players read them

const [TIMES, MINUS, DASH, ARROW] = [215, 8722, 8211, 8594].map(code => String.fromCharCode(code));
const OCTAVE = 'C,C#,D,D#,E,F,F#,G,G#,A,A#,B'.split(',');
const FORMAT = new Intl.NumberFormat('en', {maximumFractionDigits: 3});
const number = n => FORMAT.format(n).replace('-', MINUS);
const round = x => number(+x.toPrecision(3));
const plus = x => (x > 0 ? '+' : '') + number(x);
const many = (n, noun) => number(n) + ' ' + noun + (n === 1 ? '' : 's');
const isKey = k => k >= 0 && k < 128;
const key = k => OCTAVE[k % 12] + (Math.floor(k / 12) - 1);
const span = ([low, high], name) => name(low) + (low === high ? '' : DASH + name(high));
const signed = w => w > 32767 ? w - 65536 : w;
const range = w => [w & 255, w >> 8];
const ratio = cents => Math.pow(2, cents / 1200);
const time = s => s < 1 ? round(s * 1000) + ' ms' : round(s) + ' s';

// the operators: number, name and unit
const OPERATORS = new Map(`0 startAddrsOffset p,1 endAddrsOffset p,2 startloopAddrsOffset p,3 endloopAddrsOffset p,
4 startAddrsCoarseOffset b,5 modLfoToPitch c,6 vibLfoToPitch c,7 modEnvToPitch c,8 initialFilterFc h,9 initialFilterQ d,
10 modLfoToFilterFc c,11 modEnvToFilterFc c,12 endAddrsCoarseOffset b,13 modLfoToVolume d,15 chorusEffectsSend %,
16 reverbEffectsSend %,17 pan a,21 delayModLFO t,22 freqModLFO h,23 delayVibLFO t,24 freqVibLFO h,25 delayModEnv t,
26 attackModEnv t,27 holdModEnv t,28 decayModEnv t,29 sustainModEnv %,30 releaseModEnv t,31 keynumToModEnvHold k,
32 keynumToModEnvDecay k,33 delayVolEnv t,34 attackVolEnv t,35 holdVolEnv t,36 decayVolEnv t,37 sustainVolEnv d,
38 releaseVolEnv t,39 keynumToVolEnvHold k,40 keynumToVolEnvDecay k,43 keyRange K,44 velRange V,
45 startloopAddrsCoarseOffset b,46 keynum n,47 velocity x,48 initialAttenuation d,50 endloopAddrsCoarseOffset b,
51 coarseTune s,52 fineTune c,54 sampleModes m,56 scaleTuning e,57 exclusiveClass x,58 overridingRootKey n`
  .split(',').map(row => row.trim().split(' ')).map(([number, ...row]) => [+number, row]));
const operator = n => (OPERATORS.get(n) || ['operator ' + n])[0];
const MODES = ['no loop', 'loop', 'no loop', 'loop until the key is released'];

// an amount with its unit; what a preset sets is added to what its instruments set
function amount(n, w, inPreset) {
  const x = signed(w);
  switch ((OPERATORS.get(n) || [])[1]) {
    case 'p': return many(x, 'point');
    case 'b': return number(x) + ` ${TIMES} 32,768 points`;
    case 'c': return plus(x) + ' cents';
    case 'h': return inPreset ? plus(x) + ' cents' : round(8.176 * ratio(x)) + ' Hz';
    case 'd': return number(x / 10) + ' dB';
    case '%': return number(x / 10) + ' %';
    case 'a': return x ? number(Math.abs(x) / 5) + ' % ' + (x < 0 ? 'left' : 'right') : 'centre';
    case 't': return inPreset ? TIMES + ' ' + round(ratio(x)) : time(x === -32768 ? 0 : ratio(x));
    case 'k': return plus(x) + ' timecents a key';
    case 'K': return span(range(w), key);
    case 'V': return span(range(w), number);
    case 'n': return isKey(x) ? key(x) : number(x);
    case 's': return (x > 0 ? '+' : '') + many(x, 'semitone');
    case 'm': return MODES[w & 3];
    case 'e': return number(x) + ' cents a key';
    default: return number(x);
  }
}

// a controller of a modulator and its curve, and a modulator
const CONTROLLERS = {0: 'none', 2: 'velocity', 3: 'key', 10: 'key pressure', 13: 'channel pressure', 14: 'pitch wheel',
  16: 'pitch wheel range', 127: 'another modulator'};
const CURVES = ['', ', concave', ', convex', ', switch'];
const controller = w => (w & 128 ? 'controller ' + (w & 127) : CONTROLLERS[w & 127] || 'source ' + (w & 127))
  + (w & 256 ? ', falling' : '') + (w & 512 ? ', bipolar' : '') + (CURVES[w >> 10] ?? ', curve ' + (w >> 10));
const modulator = ([from, to, , by, transform]) => controller(from) + (by ? ` ${TIMES} ` + controller(by) : '')
  + (transform === 2 ? ', absolute' : '') + ` ${ARROW} ` + (to & 32768 ? 'modulator ' + (to & 32767) : operator(to));

// ---- the bank

const WORDS = {preset: 'Preset', inst: 'Instrument', sample: 'Sample'};
const member = (kind, n, name) =>
  ({kind, n, id: `${kind}-${n}`, title: name.trim() ? name : `${WORDS[kind]} ${n}`, found: [], users: []});
const contents = ([target, ...settings], n) => ({n, target, generators: new Map(settings.filter(s => s.length === 2)),
  modulators: settings.filter(s => s.length > 2)});
const owner = (kind, n, name, [all, ...zones]) =>
  ({...member(kind, n, name), all: contents(all), zones: zones.map(contents)});
const presets = presetRows.slice(1).map(([name, bank, number, ...zones], n) =>
  ({...owner('preset', n, name, zones), bank, number}));
const instruments = instrumentRows.slice(1).map(([name, ...zones], n) => owner('inst', n, name, zones));
const samples = sampleRows.slice(1).map(([name, points, rate, root, correction, type, partner, from, to, columns], n) =>
  ({...member('sample', n, name), points, rate, root, correction, type, partner, from, to, columns, partners: []}));
const members = new Map([presets, instruments, samples].flat().map(member => [member.id, member]));
for (const [owners, targets] of [[presets, instruments], [instruments, samples]])
  for (const owner of owners) for (const zone of owner.zones) targets[zone.target].users.push([owner, zone]);
const isPaired = sample => sample.type > 1 && sample.partner !== sample.n;
for (const sample of samples) if (isPaired(sample)) samples[sample.partner].partners.push(sample);
const findings = findingRows.slice(1).map(([kind, n, zone, text]) =>
  ({member: members.get(`${kind}-${n}`), zone, text: text.slice(2)}));
for (const finding of findings) finding.member.found.push(finding);

const setting = (owner, zone, n) => zone.generators.get(n) ?? owner.all.generators.get(n);
const zoneRange = (owner, zone, n) => range(setting(owner, zone, n) ?? 32512);
const root = (instrument, zone) =>
  [setting(instrument, zone, 58), samples[zone.target].root, 60].find(k => isKey(k));
const side = sample => ({2: 'right', 4: 'left', 8: 'linked'})[sample.type];
const first = ({n, partner, partners}) => partner < n && partners.some(other => other.n === partner) ? partner : n;
const colour = sample => 'c' + first(sample) % 7;

// where notes select the zones of an instrument, alone or through a zone of a preset
function areas(instrument, preset, outer) {
  const within = (zone, n) => {
    const [low, high] = zoneRange(instrument, zone, n), [least, most] = outer ? zoneRange(preset, outer, n) : [0, 127];
    return [Math.max(low, least), Math.min(high, most)];
  };
  return instrument.zones.map(zone => ({instrument, zone, preset, outer, sample: samples[zone.target],
    keys: within(zone, 43), velocities: within(zone, 44), root: root(instrument, zone)}))
    .filter(({keys, velocities}) => keys[0] <= keys[1] && velocities[0] <= velocities[1]);
}

// ---- key maps

const described = ({instrument, zone, preset, outer, sample, root}) => el('li', {},
  el('span', {class: 'dot ' + colour(sample)}), outer && [zoneLink(preset, outer), ', ', link(instrument), ' '],
  zoneLink(instrument, zone), ', ', link(sample), soft(', root key ' + key(root)));

function keyMap(areas) {
  const rects = areas.map(({sample, keys: [low, high], velocities: [least, most]}) =>
    draw('rect', {class: colour(sample), x: low, y: 127 - most, width: high + 1 - low, height: most + 1 - least}));
  const roots = areas.map(({sample, root}) =>
    draw('rect', {class: colour(sample), x: root, y: 18, width: 1, height: 6}));
  const cross = el('span', {class: 'cross', hidden: ''});
  const plot = el('div', {class: 'plot', tabindex: 0, role: 'application',
    'aria-label': 'Keys from left to right, velocities from bottom to top; the arrow keys move'},
    draw('svg', {viewBox: '0 0 128 128', preserveAspectRatio: 'none'}, rects),
    [127, 96, 64, 32].map((v, i) => el('i', {style: `top:${25 * i}%`}, v)), cross);
  const keyboard = el('div', {class: 'keys'}, draw('svg', {viewBox: '0 0 128 24', preserveAspectRatio: 'none'},
    draw('rect', {width: 128, height: 24, fill: 'url(#octave)'}), roots));
  const octaves = [...Array(11).keys()].map(o => el('span', {style: `left:${o * 9.375}%`}, 'C' + (o - 1)));
  const readout = el('figcaption', {class: 'readout', 'aria-live': 'polite'},
    soft('Point at a key and a velocity to see the zones that play. A click holds them.'));
  let at = [60, 100], held = false;

  function show(k, velocity) {
    at = [k, velocity ?? at[1]];
    const plays = areas.map(({keys, velocities}) => keys[0] <= k && k <= keys[1]
      && (velocity === null || velocities[0] <= velocity && velocity <= velocities[1]));
    rects.forEach((rect, i) => rect.classList.toggle('on', plays[i]));
    cross.hidden = velocity === null;
    cross.style = `left:${(k + .5) / 1.28}%;top:${(127.5 - at[1]) / 1.28}%`;
    const playing = areas.filter((_, i) => plays[i]);
    readout.replaceChildren(el('p', {}, el('b', {}, key(k)), ` (key ${k}), `, velocity === null ? 'any velocity' :
      'velocity ' + velocity, ': ', playing.length ? many(playing.length, 'zone') : 'no zone', soft(held && ', held')),
      el('ul', {}, playing.slice(0, 12).map(described),
        playing.length > 12 && el('li', {}, `and ${playing.length - 12} more`)));
  }
  const limit = x => Math.max(0, Math.min(127, Math.floor(x)));
  function point({currentTarget, clientX, clientY}) {
    const box = currentTarget.getBoundingClientRect();
    show(limit((clientX - box.left) / box.width * 128),
      currentTarget === plot ? 127 - limit((clientY - box.top) / box.height * 128) : null);
  }
  for (const part of [plot, keyboard]) {
    part.addEventListener('pointermove', event => held || point(event));
    part.addEventListener('click', event => { held = !held; point(event); });
  }
  const STEPS = {ArrowLeft: [-1, 0], ArrowRight: [1, 0], ArrowUp: [0, 1], ArrowDown: [0, -1]};
  plot.addEventListener('keydown', event => {
    const step = STEPS[event.key];
    if (!step) return;
    event.preventDefault();
    show(...at.map((x, i) => limit(x + step[i] * (event.shiftKey ? 12 : 1))));
  });
  return el('figure', {class: 'map'}, plot, keyboard, el('div', {class: 'octaves'}, octaves), readout);
}

// ---- waves: for each column the heights of its highest and its lowest point, two hexadecimal digits each

function wave({columns, points, from, to}) {
  const count = columns.length / 4, level = i => parseInt(columns.slice(2 * i, 2 * i + 2), 16);
  let above = '', below = '';
  for (let c = 0; c < count; c++) {
    above += `L${c} ${level(2 * c)}H${c + 1}`;
    below = `L${c + 1} ${level(2 * c + 1) + 1}H${c}` + below;
  }
  const x = point => point / points * count;
  const bar = point => draw('line', {x1: x(point), x2: x(point), y2: 256});
  return count > 0 && el('div', {class: 'wave'}, draw('svg', {viewBox: `0 0 ${count} 256`, preserveAspectRatio: 'none',
    role: 'img', 'aria-label': to ? 'Waveform with its loop' : 'Waveform'},
    draw('path', {d: `M${above.slice(1)}${below}z`}),
    to > 0 && [draw('rect', {x: x(from), width: x(to - from), height: 256}), bar(from), bar(to)]));
}

// ---- zones

function settings({generators, modulators}, inPreset) {
  const raw = (w, text) => [text, text.includes(number(signed(w))) ? '' : soft(` (${number(signed(w))})`)];
  const rows = [...generators].map(([n, w]) =>
    [operator(n), n === 43 || n === 44 ? amount(n, w) : raw(w, amount(n, w, inPreset))]);
  for (const row of modulators) rows.push(['modulator', [modulator(row), ': ', number(signed(row[2]))]]);
  return rows.length ? list(rows) : el('p', {class: 'soft'}, 'No generators or modulators');
}

function zoneRow(owner, zone) {
  const inPreset = owner.kind === 'preset', target = (inPreset ? instruments : samples)[zone.target];
  const cells = [zone.n, [link(target), side(target) && soft(' ' + side(target))],
    span(zoneRange(owner, zone, 43), key), span(zoneRange(owner, zone, 44), number),
    !inPreset && key(root(owner, zone))];
  return el('details', {class: 'zone', id: `${owner.id}-zone-${zone.n}`},
    el('summary', {}, cells.map(cell => el('span', {}, cell))), settings(zone, inPreset));
}

function zones(owner) {
  const inPreset = owner.kind === 'preset', {all} = owner;
  const titles = ['zone', inPreset ? 'instrument' : 'sample', 'keys', 'velocities', !inPreset && 'root'];
  return [el('div', {class: 'titles'}, titles.map(title => el('span', {}, title))),
    all.generators.size + all.modulators.length > 0 && el('details', {class: 'zone'},
      el('summary', {}, el('span', {}, 'all'), el('span', {}, 'global zone')), settings(all, inPreset)),
    owner.zones.map(zone => zoneRow(owner, zone))];
}

// ---- members

function usedBy({users}) {
  const zones = new Map();
  for (const [owner, zone] of users) zones.set(owner, [...zones.get(owner) || [], zone]);
  return commas([...zones].map(([owner, zones]) => [link(owner), ' (', commas(zones.slice(0, 6).map(zone =>
    zoneLink(owner, zone))), zones.length > 6 && `, ${zones.length - 6} more`, ')']));
}
const users = member => ['used by', member.users.length ? usedBy(member) : 'nothing'];

function sampleBody(sample) {
  const {points, rate, root, correction, from, to} = sample;
  const length = n => many(n, 'point') + (rate ? `, ${time(n / rate)}` : '');
  return [wave(sample), list([['length', length(points)],
    ['loop', to ? `${number(from)} to ${number(to)}: ${length(to - from)}` : 'none'],
    ['rate', number(rate) + ' Hz'],
    ['root key', [isKey(root) ? `${key(root)} (key ${root})` : 'none', correction && `, ${plus(correction)} cents`]],
    ['channel', isPaired(sample) ? [side(sample), ' with ', link(samples[sample.partner])] : side(sample) || 'mono'],
    sample.partners.some(other => other.n !== sample.partner) && ['linked by', commas(sample.partners.map(link))],
    users(sample)])];
}

function body(member) {
  const {kind, n} = member;
  if (kind === 'sample') return sampleBody(member);
  const all = kind === 'inst' ? areas(member)
    : member.zones.flatMap(zone => areas(instruments[zone.target], member, zone));
  const first = kind === 'inst' ? users(member)
    : ['number', `${member.number} in bank ${member.bank}, preset ${n} in scripts`];
  return [list([first]), all.length > 0 && keyMap(all), zones(member)];
}

function facts({kind, zones, users, points, rate, root, ...member}) {
  const facts = kind !== 'sample' ? [many(zones.length, 'zone')]
    : [side(member), isKey(root) && key(root), number(rate) + ' Hz', rate && time(points / rate)];
  return [...facts, kind !== 'preset' && !users.length && 'unused'].filter(fact => fact).join(', ');
}

function linked(text) {
  const [word, n] = text.split(' '), member = members.get(`${word}-${n}`);
  return member ? [text, ' (', link(member), ')'] : word === 'generator' ? operator(+n) : text;
}
const found = (findings, isNamed) => findings.length > 0 && el('ul', {class: 'found'},
  findings.map(({member, zone, text}) => el('li', {}, isNamed && [link(member), ': '], zone < 0 ? '' :
    [zoneLink(member, {n: zone}), ': '], text.split(/((?:preset|sample|generator) [0-9]+)/).map(linked))));
function render(member) {
  if (!member.shown) member.row.append(el('div', {class: 'body'}, found(member.found), body(member)));
  member.shown = true;
}
const padded = n => ('' + n).padStart(3, '0');
function row(member) {
  const label = member.kind === 'preset' ? `${padded(member.bank)}:${padded(member.number)}` : '' + member.n;
  member.words = `${label} ${member.title}`.toLowerCase();
  const flag = member.found.length > 0 && el('span', {class: 'flag'}, many(member.found.length, 'finding'));
  member.row = el('details', {class: 'member', id: member.id}, el('summary', {}, el('span', {class: 'number'}, label),
    el('span', {class: 'name'}, member.title), flag, el('span', {class: 'facts'}, facts(member))));
  member.row.addEventListener('toggle', () => render(member));
  return member.row;
}

// ---- the page

document.title = byId('title').textContent = texts[1].trim() || 'SoundFont bank';
byId('counts').textContent = [many(presets.length, 'preset'), many(instruments.length, 'instrument'),
  many(samples.length, 'sample'), many(samples.reduce((sum, {points}) => sum + points, 0), 'point')].join(', ');
const LABELS = ['sound engine', 'name', 'date', 'engineers', 'product', 'copyright', 'comment', 'software'];
byId('about').append(list([...LABELS.map((label, i) => texts[i] && [label, texts[i]]),
  ['format', 'SoundFont 2.' + ('' + minor).padStart(2, '0')]]));

const groups = [];
function section(id, name, count, parts) {
  fill(byId(id), {}, [el('h2', {}, name, el('small', {}, number(count))), parts]);
}
function group(heading, members) {
  const node = el('div', {}, heading && el('h3', {}, heading), members.map(row));
  groups.push({node, members});
  return node;
}
section('findings', 'Findings', findings.length, found(findings, true) || soft('Nothing found.'));
const sorted = [...presets].sort((a, b) => a.bank - b.bank || a.number - b.number || a.n - b.n);
section('presets', 'Presets', presets.length, [...new Set(sorted.map(preset => preset.bank))].map(bank =>
  group(`Bank ${bank}` + (bank === 128 ? ', percussion' : ''), sorted.filter(preset => preset.bank === bank))));
section('instruments', 'Instruments', instruments.length, group('', instruments));
section('samples', 'Samples', samples.length, group('', samples));

const search = byId('search');
function filter() {
  const words = search.value.toLowerCase().split(' ').filter(word => word);
  for (const {node, members} of groups) {
    for (const member of members) member.row.hidden = !words.every(word => member.words.includes(word));
    node.hidden = words.length > 0 && members.every(member => member.row.hidden);
  }
  byId('findings').hidden = words.length > 0;
  for (const [id, all] of Object.entries({presets, instruments, samples})) {
    const count = all.filter(({row}) => !row.hidden).length;
    byId(id).hidden = words.length > 0 && count === 0;
    byId(id).querySelector('small').textContent = (words.length ? number(count) + ' of ' : '') + number(all.length);
  }
  byId('nothing').hidden = groups.some(({node}) => !node.hidden);
  if (words.length) byId('main').scrollIntoView();
}
search.addEventListener('input', filter);
addEventListener('keydown', event => {
  if (event.key !== '/' || document.activeElement === search) return;
  event.preventDefault();
  search.select();
});

// follows a link to a member, or to one of its zones
function follow() {
  const hash = location.hash.slice(1), member = members.get(hash.split('-zone-')[0]);
  if (!member) return;
  if (member.row.hidden) {
    search.value = '';
    filter();
  }
  render(member);
  const place = byId(hash) || member.row;
  place.open = member.row.open = true;
  place.scrollIntoView();
  place.firstElementChild.focus({preventScroll: true});
}
addEventListener('hashchange', follow);
follow();
";
