//! The end of a page, with its only script: it opens what is folded, and plays a line out card by
//! card. A page without it has everything but the controls for that.

// The policy in the head lets a browser run this script alone, by its digest.

pub const END: &[u8] = b"</main>
<footer><p>Nothing on this page is loaded from a network.</p></footer>
<script>
(() => {
  const all = (it, from = document) => [...from.querySelectorAll(it)];
  const one = it => document.querySelector(it);
  const pick = one('#pick'), line = one('#line'), said = one('#said');
  let at = 0, play = '', cards = [];
  const show = () => {
    const gone = cards.slice(0, at).map(it => it[0]), last = cards[at - 1];
    all('[data-card]').forEach(it => it.classList.toggle('gone', gone.includes(it.dataset.card)));
    said.textContent = last ? at + ' of ' + cards.length + ': '
      + play.slice(0, last.index + last[0].length).split('|').pop().trim() : '';
  };
  const begin = () => { at = 0; cards = []; show(); };
  const mark = suit => {
    const sign = suit.firstChild.textContent;
    if (!suit.querySelector('[data-card]')) [...suit.childNodes].slice(1).forEach(it =>
      it.replaceWith(...it.textContent.split(' ').filter(it => it).flatMap(rank => {
        const card = document.createElement(it.nodeName === 'B' ? 'b' : 'span');
        card.textContent = rank;
        card.dataset.card = sign + rank;
        return [' ', card];
      })));
  };
  const step = by => {
    if (pick.selectedIndex === 0) pick.selectedIndex = 1;
    if (cards.length === 0) {
      const layout = all('.layouts>li')[pick.selectedIndex - 1];
      play = all('details>p', layout)[line.selectedIndex].textContent.split(': ')[1].split(' (')[0];
      cards = [...play.matchAll(/[^\\s|]+/g)];
      all('.table ul').filter(it => it.checkVisibility()).forEach(it => all('li', it).forEach(mark));
    }
    at = Math.max(0, Math.min(cards.length, at + by));
    show();
  };
  all('details>p', one('.layouts>li')).forEach((it, place) => line.add(new Option(place + 1)));
  pick.addEventListener('change', begin);
  line.addEventListener('change', begin);
  one('#next').addEventListener('click', () => step(1));
  one('#back').addEventListener('click', () => step(-1));
  one('#open').addEventListener('click', () =>
    all('details:not(#report)').forEach(it => { it.open = true; }));
  all('[hidden]').forEach(it => { it.hidden = false; });
})();
</script>
</body>
</html>
";
