//! The style of a page.

/// Colours, sizes and places, for light and dark windows and for those of phones.
pub(crate) const STYLE: &[u8] =
    b":root{color-scheme:light dark;--text:#1d2125;--soft:#616a73;--line:#dfe2e5;--back:#fff;--raised:#f5f6f7;
--accent:#0b5cad;
--warn:#9a4b00;--warnback:#fff4e3;--white:#fff;--black:#3c4248;--wave:#2f6f8f;--mark:#d03f2f}
@media (prefers-color-scheme:dark){:root{--text:#e2e5e8;--soft:#9aa3ac;--line:#30353b;--back:#16181b;--raised:#1e2125;
--accent:#7ab7f5;--warn:#f0b060;--warnback:#33260f;--white:#c9cdd1;--black:#23272b;--wave:#6fb3d2;--mark:#ff7a66}}
*{box-sizing:border-box}
html{scroll-padding-top:4.5rem;-webkit-text-size-adjust:100%}
body{margin:0 auto;padding:0 1rem 6rem;max-width:64rem;font:15px/1.45 system-ui,sans-serif;color:var(--text);
background:var(--back);font-variant-numeric:tabular-nums}
a{color:var(--accent);text-decoration:none;overflow-wrap:anywhere}
a:hover{text-decoration:underline}
:focus-visible{outline:2px solid var(--accent);outline-offset:1px;border-radius:3px}
h1{font-size:1.6rem;line-height:1.2;margin:1.6rem 0 .2rem;overflow-wrap:anywhere}
h2{font-size:1.1rem;margin:2rem 0 .4rem}
h3{font-size:.85rem;font-weight:600;color:var(--soft);margin:1.2rem 0 .3rem}
p{margin:.3rem 0}
.soft,h2 small{color:var(--soft);font-weight:400}
h2 small{font-size:.9rem;margin-left:.5em}
[hidden]{display:none!important}
nav{position:sticky;top:0;z-index:2;display:flex;flex-wrap:wrap;gap:.3rem 1.1rem;align-items:center;padding:.6rem 0;
margin-top:.8rem;background:var(--back);border-bottom:1px solid var(--line)}
nav input{flex:1 1 14rem;min-width:0;font:inherit;font-size:16px;padding:.3rem .6rem;color:inherit;
background:var(--raised);
border:1px solid var(--line);border-radius:6px}
summary{cursor:pointer;list-style:none}
summary::-webkit-details-marker{display:none}
.member>summary::before,#about>summary::before{content:'';flex:none;align-self:center;display:inline-block;width:6px;
height:6px;
margin:0 .3rem 0 .2rem;border:solid var(--soft);border-width:0 1.5px 1.5px 0;transform:rotate(-45deg)}
[open]>summary::before{transform:rotate(45deg)!important}
dl{display:grid;grid-template-columns:minmax(0,max-content) minmax(9em,1fr);gap:.15rem 1rem;margin:.4rem 0}
dt{color:var(--soft)}
dd{margin:0;min-width:0;overflow-wrap:anywhere}
#about dd{white-space:pre-wrap}
.member{border-bottom:1px solid var(--line);content-visibility:auto;contain-intrinsic-size:auto 34px}
.member[open]{content-visibility:visible}
.member>summary{display:flex;gap:.8rem;align-items:baseline;padding:.3rem .4rem}
.member>summary:hover,.zone>summary:hover{background:var(--raised)}
.member[open]>summary{font-weight:600}
.number{flex:none;min-width:4.2em;color:var(--soft);font-weight:400}
.name{flex:1;min-width:0;overflow-wrap:anywhere;white-space:pre-wrap}
.facts{color:var(--soft);font-weight:400;font-size:.87rem;text-align:right}
.flag{color:var(--warn);font-size:.87rem;font-weight:400;white-space:nowrap}
.body{padding:.2rem .4rem 1.4rem}
.found{margin:.5rem 0;padding:.4rem .7rem;list-style:none;background:var(--warnback);color:var(--warn);
border-radius:6px}
#findings .found{max-height:14.5rem;overflow:auto}
.map{margin:.8rem 0 1rem}
.plot{position:relative;height:190px;border:1px solid var(--line);border-bottom:0;cursor:crosshair;touch-action:pan-y;
background-image:linear-gradient(var(--line) 1px,transparent 1px),linear-gradient(90deg,var(--line) 1px,
transparent 1px);
background-size:100% 25%,9.375% 100%}
.map svg,.wave svg{display:block;width:100%;height:100%}
.plot rect{fill:currentColor;fill-opacity:.28;stroke:currentColor;stroke-width:1.5;vector-effect:non-scaling-stroke}
.plot rect.on{fill-opacity:.65}
.plot i{position:absolute;right:3px;font-style:normal;font-size:10px;color:var(--soft);pointer-events:none}
.cross{position:absolute;width:9px;height:9px;margin:-4px;border:2px solid var(--text);border-radius:9px;
pointer-events:none}
.map rect[class]{fill:currentColor}
.keys{height:34px;border:1px solid var(--line);cursor:crosshair}
.octaves{position:relative;height:1.2rem;font-size:10px;color:var(--soft)}
.octaves span{position:absolute}
.readout{min-height:3.2em;font-size:.9rem}
.readout ul{margin:0;padding:0;list-style:none}
.dot{display:inline-block;width:.7em;height:.7em;margin-right:.5em;border-radius:2px;background:currentColor}
.c0{color:#e69f00}.c1{color:#56b4e9}.c2{color:#009e73}.c3{color:#b8ad1c}.c4{color:#3b8fd0}.c5{color:#d55e00}.c6{
color:#cc79a7}
.zone{border-top:1px solid var(--line)}
.zone>summary,.titles{display:grid;grid-template-columns:4rem minmax(0,1fr) 6rem 5.5rem 3rem;gap:0 .8rem;
padding:.2rem .4rem}
.titles{font-size:.8rem;color:var(--soft)}
.zone[open]{background:var(--raised)}
.zone>dl,.zone>p{margin:0;padding:.1rem .4rem .7rem 5.2rem;font-size:.92rem}
.zone>summary>:first-child{color:var(--soft)}
.wave{height:110px;margin:.7rem 0 .3rem;border:1px solid var(--line);background:var(--raised)}
.wave path{fill:var(--wave)}
.wave rect{fill:var(--mark);fill-opacity:.16}
.wave line{stroke:var(--mark);stroke-width:1.5;vector-effect:non-scaling-stroke}
:target>summary{background:var(--raised)}
@media (max-width:40rem){
body{padding:0 .7rem 4rem}
nav{gap:.2rem .9rem}
nav input{flex-basis:100%}
.member>summary{flex-wrap:wrap;gap:0 .6rem;padding:.4rem .2rem}
.number{min-width:3.6em}
.name{flex-basis:8rem}
.facts{margin-left:auto}
.body{padding:.2rem 0 1.2rem}
.plot{height:150px}

.zone>dl,.zone>p{padding-left:.6rem}
.zone>summary{grid-template-columns:2.4em 1fr auto auto;padding:.35rem .2rem}
.zone>summary>:nth-child(2){grid-column:2/5}
.zone>summary>:nth-child(3){grid-column:2}
.titles{display:none}
}
@media print{nav{display:none}}
";
