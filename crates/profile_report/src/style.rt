/// The style of a page: CSS, without a font or a picture. A scheme of colours for light and one for dark, and
/// rules for paper.
pub const STYLE: &str =
    ":root{color-scheme:light dark;--bg:#fff;--fg:#1c2128;--dim:#59636e;--line:#d1d9e0;--card:#f6f8fa;\
    --link:#0550ae;--warn:#fff4d4;--edge:#8c6d00}\
    .A{--c:#d8f0e0;--t:#0a4a28;--s:#2f9e5b}.L{--c:#d6ecff;--t:#0b3f66;--s:#3487c9}\
    .E{--c:#ffe9cc;--t:#663a00;--s:#d9822b}.R{--c:#eae1ff;--t:#45288a;--s:#8560d4}\
    .N{--c:#ffdff1;--t:#7a1654;--s:#c94f98}.T{--c:#fbf0a6;--t:#574800;--s:#b59a00}\
    .H{--c:#ffd9d2;--t:#7d1c0e;--s:#d9553f}.K{--c:#8f1d1d;--t:#fff;--s:#8f1d1d}\
    @media(prefers-color-scheme:dark){:root{--bg:#0f1419;--fg:#e6e9ed;--dim:#9aa5b1;--line:#343d47;\
    --card:#171e25;--link:#79b8ff;--warn:#3a2f0b;--edge:#d8b23c}\
    .A{--c:#123c27;--t:#bdf0d1;--s:#3fb673}.L{--c:#11374f;--t:#c3e4ff;--s:#4b9fe0}\
    .E{--c:#4a3103;--t:#ffdcab;--s:#e0953f}.R{--c:#372a61;--t:#dfd2ff;--s:#9d7fe8}\
    .N{--c:#511a3d;--t:#ffcdec;--s:#d967ab}.T{--c:#443c00;--t:#f4e68d;--s:#c9b021}\
    .H{--c:#57211a;--t:#ffcfc6;--s:#e8705c}.K{--c:#a32424;--t:#fff;--s:#c23a3a}}\
    *{box-sizing:border-box}\
    body{margin:0 auto;max-width:84rem;padding:1.25rem 1rem 3rem;background:var(--bg);color:var(--fg);\
    font:15px/1.5 system-ui,sans-serif;overflow-wrap:anywhere}\
    h1{font-size:1.5rem;line-height:1.25;margin:0 0 .25rem}\
    h2{font-size:1.15rem;margin:2rem 0 .5rem;padding-top:.5rem;border-top:1px solid var(--line)}\
    h3{font-size:.95rem;margin:0}p{margin:.25rem 0}a{color:var(--link)}\
    code,summary,svg,h3,td,.n{font-family:ui-monospace,SFMono-Regular,Menlo,Consolas,monospace}\
    code{font-size:.92em}header p,.m{color:var(--dim)}\
    .k{display:flex;flex-wrap:wrap;gap:.35rem .5rem;list-style:none;margin:.5rem 0;padding:0;\
    font-size:.8rem}\
    .k li,.g details{background:var(--c);color:var(--t);border:1px solid var(--s);border-radius:4px}\
    .k li{padding:.1rem .45rem}\
    .g{display:grid;grid-template-columns:repeat(auto-fill,minmax(12.1rem,1fr));gap:4px;\
    margin-top:.75rem}\
    .g details{min-width:0;font-size:.8rem}\
    .g summary{display:flex;gap:.45em;padding:.15rem .45rem;cursor:pointer;list-style:none;\
    white-space:nowrap;overflow:hidden}\
    .g summary::-webkit-details-marker{display:none}.g b,.k b{opacity:.75}\
    .g i{font-style:normal;font-weight:700;margin-left:auto}.g i+i{margin-left:0}\
    .g details[open]{grid-column:1/-1}.g p{margin:0;padding:.15rem .45rem .4rem}\
    .g details a{color:inherit}.g .q{border-style:dashed;border-width:2px}\
    .g .d{outline:3px solid var(--fg);outline-offset:-1px}\
    .e{display:grid;grid-template-columns:repeat(auto-fill,minmax(min(25rem,100%),1fr));gap:.6rem}\
    .e section{background:var(--card);border:1px solid var(--line);border-left:6px solid var(--s);\
    border-radius:4px;padding:.5rem .75rem;font-size:.88rem}\
    .e section:target,.e section:target h3{outline:2px solid var(--link)}\
    .e section:target h3{outline:0}\
    .e h3 b{display:inline-block;min-width:1.5em;text-align:center;background:var(--c);color:var(--t);\
    border-radius:3px}\
    .n{margin:.4rem 0 0;padding:.3rem .6rem .3rem 1.6rem;background:var(--warn);\
    border-left:3px solid var(--edge);font-size:.92em;list-style-type:\"! \"}\
    .s{overflow-x:auto;max-width:100%}svg{display:block;font-size:12px}svg text{fill:var(--fg)}\
    svg .h{fill:var(--dim)}svg path{fill:none;stroke:var(--dim)}\
    svg rect{width:146px;height:17px;rx:3px;fill:var(--c);stroke:var(--s)}svg g text{fill:var(--t)}\
    table{border-collapse:collapse;font-size:.85rem}\
    th,td{text-align:left;padding:.2rem .75rem .2rem 0;border-bottom:1px solid var(--line);\
    white-space:nowrap}\
    @media(max-width:480px){.g{grid-template-columns:1fr 1fr}.g details{font-size:.7rem}}\
    :focus-visible{outline:3px solid var(--link);outline-offset:1px}\
    @media print{:root{--bg:#fff;--fg:#000;--dim:#444}body{padding:0;max-width:none;font-size:10pt}\
    *{print-color-adjust:exact;-webkit-print-color-adjust:exact}h2,h3{break-after:avoid}\
    .g{grid-template-columns:repeat(5,1fr);gap:2px}.g details,.e section,svg,li,tr{break-inside:avoid}\
    .g summary{font-size:7pt;padding:0 3px}.g .q,.g .d{grid-column:1/-1}\
    .g .q::details-content,.g .d::details-content{content-visibility:visible;height:auto}\
    .s{overflow:visible}svg{max-width:100%}}";
