//! The markup of a page's own, part by part.

// ---- what stands round the parts

pub const HEAD: &[u8] = b"<!DOCTYPE html>
<html lang='en'>
<head>
<meta charset='utf-8'/>
<meta name='viewport' content='width=device-width, initial-scale=1'/>
<meta http-equiv='Content-Security-Policy'
 content='default-src &#39;none&#39;; style-src &#39;unsafe-inline&#39;;
 script-src &#39;sha256-PXkT0BpgMm8DWo5mCVi450a/vmP/VHCNQ/LjxHAv8ZE=&#39;'/>
<title>Play ";

pub const STYLE: &[u8] = b"
:root{color-scheme:light dark;--ink:#1c1c1a;--soft:#5b5b55;--paper:#fcfbf8;--card:#fff;
--edge:#d6d4cb;--head:#e6f0e9;--felt:#14533a;--red:#b3261e;--orange:#a84300;--green:#14633f;
--yes:#e0f1e5;--no:#fbe3e0}
@media (prefers-color-scheme:dark){:root{--ink:#ecebe6;--soft:#b3b1a8;--paper:#171815;
--card:#1f211d;--edge:#44463f;--head:#1d2b23;--felt:#1b5e42;--red:#ff8a80;--orange:#ffb26b;
--green:#7fd6a4;--yes:#1d3a2a;--no:#4a211f}}
*{box-sizing:border-box}
body{margin:0;font:1rem/1.55 system-ui,sans-serif;color:var(--ink);background:var(--paper)}
header,main,footer{padding:1rem max(1rem,calc(50vw - 36rem))}
header{background:var(--head);border-bottom:1px solid var(--edge)}
h1{font-size:2rem;line-height:1.2;margin:.25rem 0 .5rem}
h2{font-size:1.35rem;margin:1.5rem 0 .5rem}
h3{font-size:.85rem;margin:0}section>h3{font-size:1.05rem;margin-top:1rem}
p{margin:.4rem 0;max-width:46rem}
.promise{font-size:1.15rem}
.note,footer{color:var(--soft);font-size:.9rem}
.facts{list-style:none;display:flex;flex-wrap:wrap;gap:.2rem 1.2rem;margin:0;padding:0;
color:var(--soft);overflow-wrap:anywhere}
a{color:var(--green)}
nav a{display:inline-block;margin-right:1rem}
:is(a,summary,select,button,[tabindex]):focus-visible{outline:3px solid var(--orange);outline-offset:2px}
.h{color:var(--red)}.d{color:var(--orange)}.c{color:var(--green)}
.table{display:grid;grid-template-areas:'. n .' 'w m e' '. f .';grid-template-columns:1fr auto 1fr;
gap:.6rem;width:max-content;max-width:100%;background:var(--card);border:1px solid var(--edge);
border-radius:.6rem;padding:1rem}
.n{grid-area:n}.e{grid-area:e}.f{grid-area:f}.w{grid-area:w}
.m{grid-area:m;background:var(--felt);color:#fff;border-radius:.4rem;padding:.5rem .8rem;
text-align:center;font-size:.9rem}
.m span{background:#fff;color:#1c1c1a;border-radius:.2rem;padding:0 .2rem}
.m .h{color:#b3261e}.m .d{color:#a84300}.m .c{color:#14633f}
.table ul,.side ul{list-style:none;margin:0;padding:0}
.side{display:inline-block;min-width:16rem;margin-right:1rem}
.side ul{display:inline}
.side li{display:inline-block;margin-left:.6rem;white-space:nowrap}
.layouts>li{margin-bottom:.6rem}
.layouts details{padding:.2rem .6rem;margin:.2rem 0}.layouts summary{font-weight:400}
.wide{overflow-x:auto;position:relative}
.one,.pick{display:none}
.one,.layout{outline-offset:.2rem}tr>*{outline-offset:-2px}
@supports selector(:has(a)){.pick{display:block}}
#table:has(option:nth-child(n+2):checked) .any{display:none}
select,button{font:inherit;color:inherit;background:var(--card);border:1px solid var(--soft);
border-radius:.4rem;padding:.3rem .5rem;min-height:2.4rem}
.gone{color:var(--soft);text-decoration:line-through}
table{border-collapse:collapse;font-variant-numeric:tabular-nums}
th,td{border-bottom:1px solid var(--edge);padding:.25rem .55rem;text-align:center}
.y{background:var(--yes);color:var(--green)}.x{background:var(--no);color:var(--red)}
td i{position:absolute;width:1px;height:1px;overflow:hidden;clip-path:inset(50%)}
details{border:1px solid var(--edge);border-radius:.5rem;background:var(--card);margin:.6rem 0;
padding:.5rem .8rem}
summary{cursor:pointer;font-weight:600}
pre{white-space:pre-wrap;overflow-wrap:anywhere;margin:.5rem 0 0;
font:.85rem/1.5 ui-monospace,monospace}
.words ul{list-style:none;margin:.2rem 0;padding:0 0 0 .8rem;border-left:2px solid var(--edge)}
.words>ul{padding:0;border:0}
.words li{margin:.35rem 0}
@media (max-width:34rem){.table{gap:.3rem;padding:.5rem;font-size:.9rem}h1{font-size:1.6rem}
.side{min-width:0;display:block}.words ul{padding-left:.5rem}.words>ul{padding:0}
.few th,.few td{padding:.25rem .3rem}}
@media print{body{background:#fff}header{background:none}nav,footer,button,.play{display:none}
.pick:has(option:first-child:checked){display:none}
.m{background:none;color:#000;border:1px solid}.wide{overflow:visible}
.wide table,.wide thead,.wide tbody{display:block}.wide tr{display:flex;flex-wrap:wrap}
.wide th,.wide td{width:1.6rem;padding:.1rem 0}
.wide th:nth-child(-n+3),.wide td:nth-child(-n+3),.few th,.few td{width:5rem}
h2,.note{break-after:avoid}tr,.side{break-inside:avoid}}
";

pub const NAVIGATION: &[u8] =
    b"<nav><a href='#table'>The table</a> <a href='#trade-offs'>Side by side</a>
<a href='#sampling'>Sampling</a> <a href='#lines'>In words</a>
<a href='#partings'>Where they part</a> <a href='#layouts'>The layouts</a> <a href='#report'>The report</a></nav>
<p hidden='hidden'><button type='button' id='open'>Open all</button></p>
</header>
<main>
";

pub const TITLE_END: &[u8] = b"</title>\n<style>";

pub const HEAD_END: &[u8] = b"</style>\n</head>\n<body>\n<header>\n";

pub const FACTS: &[u8] = b"<ul class='facts'>\n";

pub const EVENT: &[u8] = b"<li>";

pub const BOARD: &[u8] = b"<li>Board ";

pub const CONTRACT: &[u8] = b"<li>Contract ";

pub const FACTS_END: &[u8] = b" to play</li>\n</ul>\n";

pub const REPORT: &[u8] =
    b"<section>\n<details id='report'><summary>The report itself</summary>\n<pre id='text'>";

pub const REPORT_END: &[u8] = b"</pre></details>\n</section>\n";

// ---- the verdict

pub const HEADLINE: &[u8] = b"<h1>Play the ";

pub const MOST_END: &[u8] = b"</strong> (cards planned: ";

pub const AT_LEAST: &[u8] =
    b" Whatever the defenders do, a line that begins with it makes at least ";

pub const ALL_PLANNED: &[u8] =
    b"<p>Every card of declarer&#8217;s side is planned, to the end of the play.</p>\n";

pub const PLANNED: &[u8] = b"<p>Cards of declarer&#8217;s side that are planned: ";

pub const PLANNED_END: &[u8] =
    b". If the result is open after them, it is judged as if all hands were seen: with more cards
planned the figure can be lower, never higher.</p>\n";

pub const SURE_END: &[u8] =
    b". Planning more cards doesn&#8217;t change the figure: it is also the least that the card makes.</p>\n";

// ---- every legal card

pub const CARDS: &[u8] = b"<section id='cards'>
<h2>Every legal card</h2>
<p class='note'>Most: no line that begins with the card makes more. Least: a line that begins with
it makes as much, however the play goes on. Sampled: the contract can be made in as many after the
card with all hands seen. Settled: most and least are equal, so that more planned cards change
neither.</p>
<p>Cards of declarer&#8217;s side that are planned here: ";

pub const FIGURES_OF: &[u8] = b". The figures are out of ";

pub const CARDS_HEAD: &[u8] = b".</p>
<div class='wide few' tabindex='0'><table>
<thead><tr><th scope='col'>Card</th><th scope='col'>most</th><th scope='col'>least</th>
<th scope='col'>sampled</th><th scope='col'>settled</th>";

pub const TO_PLAY: &[u8] = b" <b>to play</b></th><td>";

pub const SETTLED: &[u8] = b"</td><td>yes</td></tr>\n";

pub const OPEN: &[u8] = b"</td><td>no</td></tr>\n";
// ---- what decides

pub const KEPT_DECIDED: &[u8] =
    b"<p>Among these layouts, the line that it keeps makes exactly those in which ";

pub const DECIDED: &[u8] = b"<p>Among these layouts it makes exactly those in which ";

pub const DECIDED_END: &[u8] = b".</p>\n";

pub const HAS_EXACTLY: &[u8] = b" has exactly ";

pub const HAS_AT_LEAST: &[u8] = b" has at least ";

// ---- the table

pub const TABLE_START: &[u8] = b"<section id='table'>
<h2>The table</h2>
";

pub const TABLE_END: &[u8] = b"</div>
<p class='play' hidden='hidden'><label for='line'>Play out line</label> <select id='line'></select>
<button type='button' id='back'>Back</button> <button type='button' id='next'>Next card</button>
<span id='said' role='status'></span></p>
<p class='note'><span class='any'>A defender&#8217;s hand has every card that may be in it. </span>Bold:
held in every layout.</p>
</section>
";

pub const HAND_END: &[u8] = b"</ul></div>\n";

pub const TRUMPS: &[u8] = b" trumps</p>\n<p>";

pub const CENTRE: &[u8] = b"<div class='m'><p>";

pub const NEEDED: &[u8] = b" tricks needed</p>\n<p>";

pub const CENTRE_END: &[u8] = b"</p></div>\n";

pub const HAND_IN: &[u8] = b"</ul>
<ul class='one'>
";

// ---- the picker of a layout

pub const PICKER: &[u8] =
    b"<p class='pick'><label for='pick'>Show the defenders&#8217; hands in layout</label>
<select id='pick'>
<option>any</option>
";

pub const CHOICE: &[u8] = b"<option>";

pub const CHOICE_END: &[u8] = b"</option>\n";

pub const PICKER_END: &[u8] = b"</select></p>\n<div class='table'>\n";

// What a layout's rule of style is for. A browser looks for the picked choice only where it can be,
// so that a page of many layouts doesn't become slow.

pub const PICKED: &[u8] = b"#table:has(>p>select>option:nth-child(";

pub const HANDS: &[u8] = b"):checked) .one:nth-of-type(";

pub const CELLS: &[u8] = b"):checked)~:is(#trade-offs,#sampling) td:nth-child(";

pub const HEADS: &[u8] = b"):checked)~:is(#trade-offs,#sampling) th:nth-child(";

pub const ITEMS: &[u8] = b"):checked)~#layouts .layout:nth-child(";

pub const STEPS: &[u8] = b"):checked)~#lines .step:not(.l";

pub const HIDDEN: &[u8] = b"{display:none}\n";

pub const SHOWN: &[u8] = b"{display:revert;outline:2px solid var(--orange)}\n";

// ---- the lines

pub const TRADE_OFFS: &[u8] = b"<section id='trade-offs'>
<h2>The lines side by side</h2>
<p class='note'>A line is a way to play that needs no sight of the defenders&#8217; cards. A column
is one of the <a href='#layouts'>layouts</a>: &#10003; the line makes it against any defence,
&#10007; some defence beats the line.</p>
<div class='wide' tabindex='0' role='region' aria-label='The lines side by side'><table>
<thead><tr><th scope='col'>Line</th><th scope='col'>begins</th><th scope='col'>makes</th>";

// ---- what sampling believes

pub const SAMPLING: &[u8] = b"<section id='sampling'>
<h2>What sampling believes</h2>
<p class='note'>A simulation looks at each <a href='#layouts'>layout</a> with all hands seen. So it
can believe in more than a line makes, which needs no sight of the defenders&#8217; cards. &#10003;
with all hands seen the contract can be made after the card, &#10007; it can&#8217;t. &#9660; the
best line that begins with the card makes less than is believed; a dash: no line of this report
begins with it.</p>
<p>It believes most in ";

pub const BELIEVED: &[u8] = b"with <strong>";

pub const NO_LINE_MAKES: &[u8] = b"</strong>. No line of this report makes more than <strong>";

pub const BELIEFS: &[u8] = b"</strong>.</p>
<div class='wide' tabindex='0' role='region' aria-label='What sampling believes'><table>
<thead><tr><th scope='col'>Card</th><th scope='col'>believed</th><th scope='col'>best line</th>";

pub const BELIEFS_END: &[u8] = b"</tbody></table></div>\n";

// ---- why a belief isn't true

pub const REFUTATIONS: &[u8] = b"<h3>Why a belief isn&#8217;t true</h3>
<p class='note'>Sampling believes in more than the best line makes that begins with one of these
cards. Here are the layouts in which it believes and the line fails, by the card with which the line
gives them up against the best defence: before this card the contract could still be made there with
all hands seen, and after it no longer. Sampling sees the hands and takes another card; a line plays
the same card in all layouts that look alike so far.</p>
<ul>
";

pub const GIVES_UP: &[u8] = b" gives up layouts\n<ul>\n";

pub const GIVEN_WITH: &[u8] = b"<li>with ";

pub const TO_LAYOUT: &[u8] = b" <a href='#layout-";

pub const LINES: &[u8] = b"<section id='lines'>
<h2>The lines in words</h2>
<p class='note'>Replies after which a line goes on alike are told together. In brackets are the
<a href='#layouts'>layouts</a> that are made from there, and those that fail. A card gives up a
layout if the contract could be made there before it, with all hands seen, and no longer after
it. If a layout is picked at the table, the steps that can&#8217;t be reached in it are hidden.</p>
";

pub const COLUMN: &[u8] = b"<th scope='col'>";

pub const LINK: &[u8] = b"<a href='#line-";

pub const ROW: &[u8] = b"<tr><th scope='row'>";

pub const FIRST_CARD: &[u8] = b"</th><td>";

pub const WEIGHT: &[u8] = b"</td><td>";

pub const ROWS: &[u8] = b"</tr></thead>\n<tbody>\n";

pub const ROWS_END: &[u8] = b"</tbody></table></div>\n</section>\n";

pub const LINE: &[u8] = b"<details id='line-";

pub const SUMMARY: &[u8] = b"<summary>Line ";

pub const WORDS: &[u8] = b"</summary>\n<div class='words'>";

pub const WORDS_END: &[u8] = b"</div></details>\n";

// From one step to the next: a list within it and further lists within that, the end of such a
// list, and the next in the same. The tag of the next step goes on with its name and its classes.

pub const LIST: &[u8] = b"\n<ul>\n<li";

pub const INNER_LIST: &[u8] = b">\n<ul>\n<li";

pub const LIST_END: &[u8] = b"</li>\n</ul>\n";

pub const NEXT_STEP: &[u8] = b"</li>\n<li";

pub const STEP: &[u8] = b" id='step-";

pub const CLASSES: &[u8] = b" class='step ";

pub const SECTION_END: &[u8] = b"</section>\n";

// ---- where the lines part

pub const PARTINGS: &[u8] = b"<section id='partings'>
<h2>Where the lines part</h2>
";

pub const NO_SECOND: &[u8] = b"<p>This report has no second line.</p>\n";

pub const BESIDE: &[u8] = b"<p class='note'>Two lines part if they play different cards after the
same cards. The earliest such place is shown, and of several equally early the first in card order.
A semicolon ends a trick.</p>
<ul>
";

pub const BOTH_LINES: &[u8] = b"<li>Lines <a href='#line-1'>1</a> and ";

pub const ALIKE: &[u8] = b" are the same.</li>\n";

pub const AND_LINE: &[u8] = b" and line ";

pub const PARTED: &[u8] = b"line 1 plays ";

pub const ONLY_SIX: &[u8] = b"<p class='note'>Only the first six lines are compared.</p>\n";

// ---- the layouts

pub const LAYOUTS: &[u8] = b"<section id='layouts'>
<h2>The layouts</h2>
<p class='note'>The defenders&#8217; hands now, numbered as the columns and the words are. A line is
played out against defenders who see all hands, know the line and beat it if they can; bars divide
the tricks.</p>
<ol class='layouts'>
";

pub const ITEM: &[u8] = b"<li class='layout' id='layout-";

pub const SIDE: &[u8] = b"<div class='side'><b>";

pub const SIDE_HAND: &[u8] = b"</b>\n<ul>\n";

pub const WEIGHS: &[u8] = b"<p>Weight ";

pub const PLAYS: &[u8] = b"<details><summary>Played out</summary>\n";

pub const PLAY: &[u8] = b"<p>Line ";

pub const GIVEN_UP: &[u8] = b" (given up with ";

pub const PLAY_END: &[u8] = b"</p>\n";

pub const PLAYS_END: &[u8] = b"</details></li>\n";

pub const NUMBERS: &[u8] = b"</ol>
<p class='note'>Their numbers in the layout file:";

pub const NUMBERS_END: &[u8] = b"</p>\n";
