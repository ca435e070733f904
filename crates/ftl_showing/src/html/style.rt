//! How HTML files look.

/// The styles of all files: panels side by side in a wide window, else one below the other.
pub const STYLE: &str =
    ":root{color-scheme:light dark;--ground:#fff;--ink:#1c1e21;--dim:#5f656d;--edge:#cfd4da;
--lit:#ffec99;--bad:#c00;--paper:#fff}
@media(prefers-color-scheme:dark){:root{--ground:#16181b;--ink:#e4e6e9;--dim:#9ba1a9;
--edge:#3b4047;--lit:#5c4d05;--bad:#ff7b72;--paper:#1d2024}
#picture path.out{stroke:#ff5c5c}#picture path.unknown{stroke:#ff5c5c}}
*{box-sizing:border-box}
body{margin:0;padding:.75rem;background:var(--ground);color:var(--ink);
font:14px/1.4 system-ui,sans-serif}
header{display:flex;flex-wrap:wrap;gap:0 1rem;align-items:baseline}
h1{margin:0;font-size:1.1rem;overflow-wrap:anywhere}
header p{margin:0;color:var(--dim)}
h2{display:flex;flex-wrap:wrap;gap:.5rem;align-items:baseline;min-height:1.6rem;margin:0;
font-size:.85rem;overflow-wrap:anywhere}
.classes{display:flex;flex-wrap:wrap;gap:0 1rem;margin:.25rem 0}
.classes i{display:inline-block;width:.8em;height:.8em;margin-right:.35em;border-radius:2px}
main{display:grid;grid-template-columns:minmax(0,1fr);gap:.5rem .75rem}
section{display:flex;flex-direction:column;min-width:0;min-height:0}
.pane{position:relative;flex:1;min-height:0;max-height:60vh;overflow:auto;
border:1px solid var(--edge);border-radius:4px}
pre,dl{margin:0;font:12px/18px ui-monospace,monospace;tab-size:4}
.code{display:flex}
.code pre{padding:4px 8px}
.code pre.numbers{position:sticky;left:0;border-right:1px solid var(--edge);
background:var(--ground);color:var(--dim);text-align:right;user-select:none}
#picture{background:var(--paper)}
#picture svg{display:block;height:auto}
#picture rect{fill:var(--paper)}
#picture text{fill:var(--ink)}
#picture path{cursor:pointer}
#picture #at{fill:none;stroke:var(--ink);stroke-width:3;pointer-events:none}
#picture #at.pinned{stroke:#e8590c}
#picture canvas{position:sticky;left:0;top:0;display:block;cursor:pointer}
#tree{cursor:pointer}
#tree pre{position:relative}
#bar{position:absolute;left:0;right:0;height:18px;background:var(--lit);visibility:hidden}
#bar.pinned{box-shadow:inset 4px 0 #e8590c}
dl{display:grid;grid-template-columns:repeat(auto-fill,minmax(9.5rem,1fr));gap:0 1rem;
padding:4px 8px}
dl div{display:flex;flex-wrap:wrap;justify-content:space-between;gap:0 .5rem}
dt{color:var(--dim)}
dd{margin:0}
dd.bad{color:var(--bad);font-weight:bold}
.values .pane{flex:none;height:10rem}
button{padding:0 .5em;font:inherit;font-weight:normal}
.refusal{padding:.5rem .75rem;overflow:auto;border-left:4px solid var(--bad)}
.marked{font-weight:normal;background:var(--lit)}
mark{background:var(--bad);color:var(--ground)}
@media(min-width:60rem){
body{display:flex;flex-direction:column;height:100vh}
.pane,.values .pane{flex:1;height:auto;max-height:none}
main{flex:1;min-height:0;grid-template:repeat(5,minmax(0,1fr))/minmax(0,3fr) minmax(0,2fr)}
.picture{grid-area:1/1/4/2}
.source{grid-area:4/1/6/2}
.values{grid-area:1/2/3/3}
.tree{grid-area:3/2/6/3}
main.refused{display:flex;flex-direction:column}
main.refused .source{flex:1}
}
";
