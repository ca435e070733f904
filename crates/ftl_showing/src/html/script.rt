//! What HTML files do. The scripts have neither `<` nor `&`, so that the files are XML as well.

/// Shows the node that is pointed at in each panel. One of the next two stands behind it.
pub const LINK_PANELS: &str = "const byId = id => document.getElementById(id);
const picture = byId('picture'), tree = byId('tree'), lines = byId('lines'), bar = byId('bar');
const all = byId('all').textContent.split('\\n'), last = all.length - 2;
const high = parseFloat(getComputedStyle(lines).lineHeight);
const padding = parseFloat(getComputedStyle(lines).paddingTop);
let current = -1, pinned = false;

function part(tag, text) {
  const it = document.createElement(tag);
  it.textContent = text;
  return it;
}

function row(field) {
  const [name, value] = field.split('='), it = document.createElement('div');
  it.append(part('dt', name), part('dd', value));
  if (value === 'overflow') it.lastChild.className = 'bad';
  return it;
}

function tell(node, hasBox) {
  const words = all[node].trim().split(' '), first = words.findIndex(it => it.includes('='));
  const fields = first > -1 ? words.slice(first) : [];
  const name = words.slice(0, words.length - fields.length).join(' ');
  byId('head').textContent = hasBox ? name : name + ' (has no box)';
  byId('values').replaceChildren(...fields.map(row));
}

// Scrolls a panel, and nothing else, as far as it takes to see what stands there.
function reveal(pane, box) {
  const room = pane.getBoundingClientRect();
  if (room.top > box.top || box.bottom > room.bottom)
    pane.scrollTop += box.top - room.top - room.height / 3;
  if (room.left > box.right || box.left > room.right)
    pane.scrollLeft += box.left - room.left - room.width / 3;
}

// Shows a node in each panel, and scrolls those that it was not pointed at in.
function show(node, from) {
  if (node === current || 0 > node || node > last) return;
  current = node;
  const box = markBox(node);
  tell(node, box !== null);
  bar.style.visibility = 'visible';
  bar.style.top = padding + node * high + 'px';
  if (from !== picture) if (box) reveal(picture, box);
  if (from !== tree) reveal(tree, bar.getBoundingClientRect());
}

function nodeBeside(event) {
  const top = tree.getBoundingClientRect().top + tree.clientTop - tree.scrollTop;
  return Math.floor((event.clientY - top - padding) / high);
}

function pin(isPinned) {
  pinned = isPinned;
  bar.classList.toggle('pinned', pinned);
  markPinned(pinned);
}

function follow(pane, find) {
  pane.addEventListener('pointermove', event => { if (!pinned) show(find(event), pane); });
  pane.addEventListener('click', event => {
    const node = find(event), isLetGo = pinned ? node === current : false;
    show(node, pane);
    pin(node > -1 ? !isLetGo : false);
  });
}

tree.addEventListener('keydown', event => {
  const step = { ArrowDown: 1, ArrowUp: -1 }[event.key];
  if (event.key === 'Escape') pin(false);
  if (!step) return;
  event.preventDefault();
  show(current + step, null);
});
follow(tree, nodeBeside);
follow(picture, nodeAt);
byId('more').onclick = () => zoom(1.5);
byId('less').onclick = () => zoom(1 / 1.5);
byId('fit').onclick = () => zoom(0);
";

/// Boxes that are drawn already.
pub const DRAWN_BOXES: &str = "const svg = document.querySelector('svg');
let isFit = true;
const at = document.createElementNS(svg.namespaceURI, 'path');
at.id = 'at';
svg.append(at);

function markBox(node) {
  const box = byId('n' + node);
  at.setAttribute('d', box ? box.getAttribute('d') : 'M0 0');
  return box ? box.getBoundingClientRect() : null;
}

function markPinned(isPinned) {
  at.classList.toggle('pinned', isPinned);
}

function nodeAt(event) {
  const box = event.target.closest('path');
  return box ? Number(box.id.slice(1)) : -1;
}

// A drawing fits where all of it can be seen, or its width if it is much higher than wide.
function fit() {
  svg.style.width = '';
  const [wide, tall] = ['width', 'height'].map(it => Number(svg.getAttribute(it)));
  const across = picture.clientWidth / wide, down = picture.clientHeight / tall;
  return wide * Math.min(1, across, tall > wide * 3 ? across : down);
}

function zoom(times) {
  const now = svg.getBoundingClientRect().width;
  isFit = !times;
  svg.style.width = (times > 0 ? now * times : fit()) + 'px';
}

addEventListener('resize', () => { if (isFit) zoom(0); });
zoom(0);
";

/// Boxes and lines of the tree, drawn where they are looked at.
pub const DRAW_BOXES: &str =
    "const canvas = byId('canvas'), brush = canvas.getContext('2d'), sheet = byId('sheet');
const numbers = byId('boxes').textContent.trim().split('\\n').map(it => it.split(' ').map(Number));
const [leftmost, topmost, wide, tall, scale] = numbers.shift();
const places = new Map(numbers.map((it, place) => [it[0], place]));
const rows = byId('rows').textContent.split('\\n'), colors = [];
const style = getComputedStyle(document.body);
for (const it of document.querySelectorAll('.classes i'))
  colors[Number(it.className.slice(1))] = getComputedStyle(it).backgroundColor;
let times = 0, isFit = true;

function size() {
  sheet.style.width = wide * times + 'px';
  sheet.style.height = tall * times + 'px';
}

function fit() {
  times = Math.min(scale, picture.clientWidth / wide);
  size();
}

// The part of the page that can be seen: from its left and top to its right and bottom.
function seen() {
  const x = leftmost + picture.scrollLeft / times, y = topmost + picture.scrollTop / times;
  return [x, y, x + picture.clientWidth / times, y + picture.clientHeight / times];
}

function drawCross(x, y, w, h) {
  brush.strokeStyle = '#d00';
  brush.beginPath();
  brush.moveTo(x, y);
  brush.lineTo(x + w, y + h);
  brush.moveTo(x + w, y);
  brush.lineTo(x, y + h);
  brush.stroke();
}

// A box of kind 1 and 3 is a leaf, one of kind 2 and 3 sticks out, and one of kind 4 is unknown.
function drawBox([node, color, kind, x, y, w, h]) {
  if (kind === 4) return drawCross(x, y, w, h);
  const isLeaf = kind % 2 === 1, stroke = kind > 1 ? '#d00' : colors[color];
  brush.fillStyle = colors[color];
  brush.strokeStyle = stroke;
  brush.globalAlpha = isLeaf ? 0.3 : 0.08;
  brush.fillRect(x, y, w, h);
  brush.globalAlpha = 1;
  brush.strokeRect(x, y, w, h);
  if (!isLeaf || 14 > h * times) return;
  const words = rows[node].trim().split(' ', 2).join(' ');
  const text = w * times > words.length * 7 ? words : String(node);
  brush.fillStyle = style.color;
  if (w * times > text.length * 7) brush.fillText(text, x + 3 / times, y + 12 / times);
}

function draw() {
  const dots = devicePixelRatio, [x0, y0, x1, y1] = seen();
  canvas.width = picture.clientWidth * dots;
  canvas.height = picture.clientHeight * dots;
  canvas.style.width = picture.clientWidth + 'px';
  canvas.style.height = picture.clientHeight + 'px';
  brush.scale(times * dots, times * dots);
  brush.translate(-x0, -y0);
  brush.lineWidth = 1 / times;
  brush.font = 11 / times + 'px sans-serif';
  for (const it of numbers) {
    const [, , , x, y, w, h] = it;
    if (y > y1 || y0 > y + h || x > x1 || x0 > x + w) continue;
    drawBox(it);
  }
  const marked = places.get(current);
  if (marked === undefined) return;
  brush.strokeStyle = pinned ? '#e8590c' : style.color;
  brush.lineWidth = 3 / times;
  brush.strokeRect(...numbers[marked].slice(3));
}

function markBox(node) {
  const place = places.get(node), room = picture.getBoundingClientRect();
  requestAnimationFrame(draw);
  if (place === undefined) return null;
  const [, , , x, y, w, h] = numbers[place], [x0, y0] = seen();
  const across = room.left + picture.clientLeft + (x - x0) * times;
  const down = room.top + picture.clientTop + (y - y0) * times;
  return new DOMRect(across, down, w * times, h * times);
}

function markPinned() {
  requestAnimationFrame(draw);
}

function nodeAt(event) {
  const room = picture.getBoundingClientRect(), [x0, y0] = seen();
  const x = x0 + (event.clientX - room.left - picture.clientLeft) / times;
  const y = y0 + (event.clientY - room.top - picture.clientTop) / times;
  const found = numbers.findLast(it =>
    x >= it[3] ? y >= it[4] ? it[3] + it[5] >= x ? it[4] + it[6] >= y : false : false : false);
  return found ? found[0] : -1;
}

// To fit is tried twice, since the first time may bring a bar to scroll by.
function zoom(more) {
  isFit = !more;
  if (more > 0) times *= more;
  else fit();
  if (!more) fit();
  size();
  draw();
}

// Of the tree only the lines that can be seen are there.
function fill() {
  const first = Math.max(0, Math.floor(tree.scrollTop / high) - 20);
  const end = first + Math.ceil(tree.clientHeight / high) + 40;
  lines.textContent = rows.slice(first, end).join('\\n');
  lines.style.marginTop = first * high + 'px';
  lines.style.height = (rows.length - first) * high + 'px';
}

picture.addEventListener('scroll', draw);
tree.addEventListener('scroll', fill);
addEventListener('resize', () => { zoom(isFit ? 0 : 1); fill(); });
zoom(0);
fill();
";

/// Scrolls to the place of a refusal.
pub const FIND_MARK: &str =
    "const place = document.querySelector('mark') ?? document.querySelector('.marked');
place?.scrollIntoView({ block: 'center', inline: 'nearest' });
";
