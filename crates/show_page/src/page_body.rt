//! The elements of a page.

/// The elements that the script fills, up to the data.
pub(crate) const BODY: &[u8] = b"</style>
</head>
<body>
<header>
<h1 id='title'>SoundFont bank</h1>
<p class='soft' id='counts'></p>
<details id='about'><summary class='soft'>About this bank</summary></details>
</header>
<noscript><p>This page needs JavaScript, which is in the page itself, to show the bank.</p></noscript>
<nav aria-label='Parts of the bank'>
<input id='search' type='search' placeholder='Search names and numbers' aria-label='Search names and numbers'>
<a href='#presets'>Presets</a> <a href='#instruments'>Instruments</a> <a href='#samples'>Samples</a>
<a href='#findings'>Findings</a>
</nav>
<main id='main'>
<section id='findings'></section>
<section id='presets'></section>
<section id='instruments'></section>
<section id='samples'></section>
<p class='soft' id='nothing' hidden>Nothing has this name or number.</p>
</main>
<svg width='0' height='0' style='position:absolute' aria-hidden='true'>
<defs>
<pattern id='octave' width='12' height='24' patternUnits='userSpaceOnUse'>
<path fill='var(--white)' d='M0 0h12v24H0z'/>
<path fill='var(--soft)' d='M1.5 15h.12v9h-.12zM3.5 15h.12v9h-.12zM4.94 0h.12v24h-.12zM6.5 15h.12v9h-.12z'/>
<path fill='var(--soft)' d='M8.5 15h.12v9h-.12zM10.5 15h.12v9h-.12zM11.88 0h.12v24h-.12z'/>
<path fill='var(--black)' d='M1 0h1v15h-1zM3 0h1v15h-1zM6 0h1v15h-1zM8 0h1v15h-1zM10 0h1v15h-1z'/>
</pattern>
</defs>
</svg>
<script type='application/json' id='bank'>
";
